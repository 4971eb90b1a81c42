//! What a request names, for the lines behind its faults.

use crate::command_line::{MakeRequest, Request, ShowRequest, TakeRequest};
use command_listing::dumping;
use command_parts::requests::RunRequest;
use command_parts::selecting::GivenSelection;
use command_remedies::Named;

/// What a request names.
pub(crate) fn named_in<'r, 'a>(request: &'r Request<'a>) -> Named<'r, 'a> {
    Named {
        text: text_in(request),
        script: script_in(request),
        jobs: jobs_in(request),
        report: report_in(request),
        recording: recording_in(request),
        reproduced: reproduced_in(request),
        rules: rules_in(request),
        dictionary: dictionary_in(request),
        selection: selection_in(request),
        run: run_in(request),
        completes: is_completed(request),
        order: order_of(request),
    }
}

/// The message of `bench one`.
fn text_in<'a>(request: &Request<'a>) -> Option<&'a str> {
    match request {
        Request::Make(MakeRequest::One(request)) => Some(request.text),
        _ => None,
    }
}

/// The file of a script.
fn script_in<'a>(request: &Request<'a>) -> Option<&'a str> {
    match request {
        Request::Make(MakeRequest::Assemble(request)) => Some(request.script),
        _ => None,
    }
}

/// The files of jobs.
fn jobs_in<'r, 'a>(request: &'r Request<'a>) -> &'r [&'a str] {
    match request {
        Request::Make(MakeRequest::Run(request)) => request.run.jobs.as_slice(),
        Request::Make(MakeRequest::Check(request)) => request.jobs.as_slice(),
        Request::Show(ShowRequest::Step(request)) => request.jobs.as_slice(),
        _ => &[],
    }
}

/// The file of a report.
fn report_in<'a>(request: &Request<'a>) -> Option<&'a str> {
    match request {
        Request::Show(ShowRequest::Step(request)) => Some(request.report),
        _ => None,
    }
}

/// The file that is read as a recording.
fn recording_in<'a>(request: &Request<'a>) -> Option<&'a str> {
    match request {
        Request::Show(ShowRequest::Dump(dumping::Request::Packets(packets))) => Some(
            packets.recording,
        ),
        Request::Show(ShowRequest::Dump(dumping::Request::Messages(messages))) => {
            Some(messages.recording)
        }
        Request::Show(ShowRequest::Stat(request)) => Some(request.recording),
        Request::Take(TakeRequest::Export(request)) => Some(request.extract.recording),
        Request::Show(ShowRequest::Signals(request)) => Some(request.extract.recording),
        Request::Show(ShowRequest::Draw(request)) => Some(request.showing.extract.recording),
        Request::Show(ShowRequest::View(request)) => Some(request.showing.extract.recording),
        Request::Take(TakeRequest::Complete(request)) => Some(request.recording),
        Request::Take(TakeRequest::Judge(request)) => Some(request.recording),
        Request::Take(TakeRequest::Cut(request)) => Some(request.extract.recording),
        Request::Make(MakeRequest::Reproduce(request)) => Some(request.recording),
        Request::Show(ShowRequest::Step(request)) => Some(request.recording),
        _ => None,
    }
}

/// The file that is read as a recording, where it is to be made into a job.
fn reproduced_in<'a>(request: &Request<'a>) -> Option<&'a str> {
    match request {
        Request::Make(MakeRequest::Reproduce(request)) => Some(request.recording),
        _ => None,
    }
}

/// The file of rules.
fn rules_in<'a>(request: &Request<'a>) -> Option<&'a str> {
    match request {
        Request::Take(TakeRequest::Judge(request)) => request.rules,
        Request::Make(MakeRequest::Run(request)) => request.run.judge,
        _ => None,
    }
}

/// The file of a dictionary.
fn dictionary_in<'a>(request: &Request<'a>) -> Option<&'a str> {
    match request {
        Request::Show(ShowRequest::Signals(request)) => Some(request.dictionary),
        Request::Take(TakeRequest::Export(request)) => request.signals,
        Request::Show(ShowRequest::Draw(request)) => request.showing.signals,
        Request::Show(ShowRequest::View(request)) => request.showing.signals,
        Request::Show(ShowRequest::Stat(request)) => request.signals,
        Request::Take(TakeRequest::Judge(request)) => request.signals,
        Request::Make(MakeRequest::Check(request)) => request.signals,
        Request::Make(MakeRequest::Run(request)) => request.run.signals,
        Request::Show(ShowRequest::Dump(dumping::Request::Messages(messages))) => messages.signals,
        _ => None,
    }
}

/// Which messages are asked for.
fn selection_in<'r, 'a>(request: &'r Request<'a>) -> Option<&'r GivenSelection<'a>> {
    match request {
        Request::Show(ShowRequest::Dump(dumping::Request::Messages(messages))) => {
            Some(&messages.selection)
        }
        Request::Show(ShowRequest::Stat(request)) => Some(&request.selection),
        Request::Take(TakeRequest::Export(request)) => Some(&request.extract.selection),
        Request::Show(ShowRequest::Signals(request)) => Some(&request.extract.selection),
        Request::Show(ShowRequest::Draw(request)) => Some(&request.showing.extract.selection),
        Request::Show(ShowRequest::View(request)) => Some(&request.showing.extract.selection),
        Request::Take(TakeRequest::Cut(request)) => Some(&request.extract.selection),
        Request::Take(TakeRequest::Compare(request)) => Some(&request.selection),
        _ => None,
    }
}

/// What a run is asked for.
fn run_in<'r, 'a>(request: &'r Request<'a>) -> Option<&'r RunRequest<'a>> {
    match request {
        Request::Make(MakeRequest::Run(request)) => Some(&request.run),
        _ => None,
    }
}

/// Whether the recording of a run is completed.
fn is_completed(request: &Request<'_>) -> bool {
    match request {
        Request::Make(MakeRequest::Run(request)) => request.completing.is_some(),
        _ => false,
    }
}

/// In which order a command takes files of more than one kind.
fn order_of(request: &Request<'_>) -> &'static str {
    match request {
        Request::Show(ShowRequest::Step(_)) => {
            "  bench step takes the recording, then the report of its run, then the jobs of it\n"
        }
        Request::Take(TakeRequest::Judge(_)) =>
            "  bench judge takes the recording, then the rules\n",
        Request::Show(ShowRequest::Signals(_)) => {
            "  bench signals takes the recording, then the dictionary\n"
        }
        _ => "",
    }
}
