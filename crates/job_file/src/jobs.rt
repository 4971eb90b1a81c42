//! A job: all that is to be known of a channel's bus.
ghost use Rattle.bc_machine.specs.Running.{started};
ghost use Rattle.bc_machine.specs.UnderWay.{IsUnderWay};
ghost use Rattle.frame_asm.specs.Shapes.{code_of_tree};
ghost use Rattle.frame_load.specs.Budget.{worst_messages};
ghost use Rattle.frame_tree.specs.Bounds.{IsSound};
ghost use Rattle.job_file.specs.Drafts.{shown};
ghost use Rattle.job_file.specs.JobRanges.{may_act, IsFit, IsFitTimed};
ghost use Rattle.job_file.specs.Jobs.{own_inserts, said_actions, said_inserts, tree_in, job_in};
ghost use Rattle.job_file.specs.Machines.{IsOf, IsLatestOutcome};
ghost use Rattle.job_file.specs.Meaning.{bus_of};
ghost use Rattle.job_file.specs.Reading.{all_inserts};
ghost use Rattle.job_file.specs.Rooms.{most_items};
ghost use Rattle.job_file.specs.Scripts.{tree_spelled, IsProgramOf};
ghost use Rattle.job_file.specs.Spelled.{job_with};
ghost use Rattle.job_file.specs.Timed.{says_nothing};
ghost use Rattle.job_file.specs.TimedLines.{nothing_yet, timed_inserts};
ghost use Rattle.mil_bus.specs.Addresses.{is_fit};
ghost use Rattle.mil_bus.specs.Exchange.{now_of};
ghost use Rattle.std.specs.List.{list_all};
ghost use Rattle.std.specs.Prelude.{◌≡◌, ◌+◌, ◌≤◌, ◌^◌, [], true, false, not, Some, IfOk};

use crate::drafts::Draft;
use crate::scripts::Script;
use crate::timed::TimedLines;
use bc_machine::{Actions, Machine};
use frame_load::Program;
use mil_bus::Bus;
use mil_line::Plan;
use std::alloc::{AllocError, Global};
use std::marker::Model;

/// A job: the number of a channel, when its first message starts, its terminals, what their hosts do, the faults that
/// are planned, and the program of its script. Contracts see the script's text too, of which no byte is kept.
#[derive(Drop)]
pub struct Job {
    channel: u16,
    start: u64,
    addresses: Vec<u8>,
    actions: Actions,
    plan: Plan,
    program: Program,
    script: Script,
    /// The actions that its lines place by number, where a line is by time or by command; else none.
    own: Actions,
    timed: TimedLines,
}

impl Model for Job {
    ghost use Rattle.job_file.specs.Jobs.{JobState};
    ghost use Rattle.job_file.specs.contracts.scripts.Script as scripts;
    ghost use Rattle.std.specs.Coded.{codes};

    ghost Value = { JobState };

    ghost coded = { Prim.hlevel (codes, scripts.the_row.coded) };

    ghost use Rattle.job_file.specs.PlainJob.{state_in, IsKeptJob};

    ghost view = { state_in };

    ghost invariant = { IsKeptJob };
}

impl Job {
    /// The job of a draft that names its channel, with the program of its script, as far as it is said by number; what
    /// is said by time and by command is still to be found.
    pub(crate) fn make(
        alloc: Global,
        channel: u16,
        draft: Draft,
        program: Program,
        script: Script,
    ) -> Job
        requires channel { draft.channel ≡ Some channel }
        requires fit { IsFit (shown draft) }
        requires program { IsProgramOf script.text program }
        requires few { all_inserts draft.actions draft.timed.whens + worst_messages program.operations ≤ 1000000 }
        ensures job { job_in result ≡ job_with channel (shown draft) (tree_spelled script.text) }
        ensures own { result.own ≡ [] }
        ensures timed { result.timed ≡ draft.timed }
    {
        Job {
            channel,
            start: draft.start.unwrap_or(0),
            addresses: draft.addresses,
            actions: draft.actions,
            plan: draft.plan,
            program,
            script,
            own: Actions::new(alloc),
            timed: draft.timed,
        }
    }

    /// The number of the channel, 1 to 65,535.
    pub fn channel(&self) -> u16
        ensures value { result ≡ self.now.channel }
        ensures low { 1 ≤ result }
    {
        self.channel
    }

    /// Whether a line of its text says by time or by command when something is due, so that its actions and faults
    /// stand at numbers that no line names: where other messages come between, as in a live run, they are not those.
    pub fn has_moments(&self) -> bool
        ensures { result ≡ not (says_nothing self.now.timed) }
    {
        !self.timed.is_empty()
    }

    /// What its lines say by time and by command.
    pub(crate) fn timed(&self) -> &TimedLines
        ensures value { result.now ≡ self.now.timed }
        ensures fit { IsFitTimed self.now.addresses result.now }
    {
        &self.timed
    }

    /// The actions that its lines place by number.
    pub(crate) fn said_actions(&self) -> &Actions
        ensures value { result.now ≡ said_actions self.now }
        ensures fit { list_all (may_act self.now.addresses) result.now ≡ true }
    {
        if self.timed.is_empty() {
            &self.actions
        } else {
            &self.own
        }
    }

    /// How many messages its lines have inserted, by number, by time and by command.
    fn said_inserts(&self) -> u64
        ensures { result ≡ said_inserts self.now }
    {
        self.said_actions().inserts() + self.timed.inserts()
    }

    /// When the first message starts, 0 to 2^47 ticks of 0.1 µs.
    pub fn start(&self) -> u64
        ensures value { result ≡ self.now.start }
        ensures high { result ≤ 140737488355328 }
    {
        self.start
    }

    /// The addresses of the terminals, 0 to 30, in the order of the text.
    pub fn addresses(&self) -> &[u8]
        ensures value { result.now ≡ self.now.addresses }
        ensures fit { is_fit result.now ≡ true }
    {
        self.addresses.as_slice()
    }

    /// What the hosts do, in the order of the text: each action is of one of the terminals, at a message 1 to
    /// 1,000,000.
    pub fn actions(&self) -> &Actions
        ensures value { result.now ≡ self.now.actions }
        ensures fit { list_all (may_act self.now.addresses) result.now ≡ true }
    {
        &self.actions
    }

    /// The planned faults, in the order of the text.
    pub fn plan(&self) -> &Plan
        ensures { result.now ≡ self.now.plan }
    {
        &self.plan
    }

    /// The program of the script.
    pub fn program(&self) -> &Program
        ensures value { result.now ≡ code_of_tree (tree_in self.now) }
        ensures sound { IsSound (tree_in self.now) }
    {
        &self.program
    }

    /// How much room of a run's queue the channel takes at most where up to so many actions are posted to it, at most
    /// 1,000,001 items more than these: one for each message that its script may send, one for each that a line of the
    /// job or a post may have inserted, and its end mark.
    pub fn most_items(&self, posts: u32) -> u64
        ensures value { result ≡ most_items posts self.now }
        ensures high { result ≤ 1000001 + posts }
    {
        let inserts = self.actions.inserts().max(self.said_inserts());
        self.program().worst_messages() + inserts + u64::from(posts) + 1
    }

    /// A controller at the beginning of the job's program, on a bus with new terminals, under these planned faults and
    /// placed actions. It fails for want of memory alone.
    pub(crate) fn machine_under(
        &self,
        alloc: Global,
        plan: Plan,
        placed: &Actions,
    ) -> Result<Machine, AllocError>
        ensures value { IfOk result
            (λ m. m ≡ started (code_of_tree (tree_in self.now)) (bus_of (job_in self.now)) plan placed.now) }
        ensures under_way { IfOk result (λ m. IsUnderWay m) }
    {
        let program = self.program.copy()?;
        let placed = placed.copy()?;
        match self.bus(alloc) {
            Ok(bus) => Ok(Machine::start(program, bus, plan, placed)),
            Err(error) => Err(error),
        }
    }

    /// The bus with new terminals, before any message. It fails for want of memory alone.
    fn bus(&self, alloc: Global) -> Result<Bus, AllocError>
        ensures value { IfOk result (λ b. b ≡ bus_of (job_in self.now)) }
        ensures now { IfOk result (λ b. now_of b ≤ 2 ^ 47) }
    {
        match Bus::make(alloc, self.start, self.addresses.as_slice()) {
            Ok(bus) => Ok(bus),
            Err(_) => Err(AllocError),
        }
    }

    /// A controller at the beginning of the job's program, on a bus with new terminals, under the job's planned faults
    /// and these placed actions, which are not the job's own unless the caller hands in those. It fails for want of
    /// memory alone.
    #[tactic(auto, using(crate::proofs::JobRuns::starts_as))]
    pub fn machine(&self, alloc: Global, placed: &Actions) -> Result<Machine, AllocError>
        ensures value { IfOk result
            (λ m. m ≡ started (code_of_tree (tree_in self.now)) (bus_of (job_in self.now)) self.now.plan placed.now) }
        ensures of_job { IfOk result (λ m. IsOf (job_in self.now) placed.now m) }
        ensures told { IfOk result (λ m. IsLatestOutcome m) }
    {
        let plan = self.plan.copy()?;
        Ok(self.machine_under(alloc, plan, placed)?)
    }

    /// The job's controller before any message, on a bus with new terminals, under the job's planned faults and its own
    /// placed actions: it takes over what the job has, so that memory holds that once. It fails for want of memory
    /// alone.
    #[tactic(auto, using(crate::proofs::JobRuns::starts_as))]
    pub fn into_machine(self, alloc: Global) -> Result<Machine, AllocError>
        ensures value { IfOk result
            (λ m. m ≡ started (code_of_tree (tree_in self)) (bus_of (job_in self)) self.plan self.actions) }
        ensures of_job { IfOk result (λ m. IsOf (job_in self) self.actions m) }
        ensures told { IfOk result (λ m. IsLatestOutcome m) }
    {
        match self.bus(alloc) {
            Ok(bus) => Ok(Machine::start(self.program, bus, self.plan, self.actions)),
            Err(error) => Err(error),
        }
    }

    /// The same job with other actions and another plan, where its own actions were those that its lines place by
    /// number.
    pub(crate) fn by_number(self, actions: Actions, plan: Plan) -> Job
        requires said { says_nothing self.timed ≡ false }
        requires own { self.own ≡ [] }
        requires acts { list_all (may_act self.addresses) actions ≡ true }
        requires few { own_inserts actions + worst_messages (code_of_tree (tree_in self)).operations ≤ 1000000 }
        requires few_said { own_inserts self.actions + timed_inserts self.timed.whens
            + worst_messages (code_of_tree (tree_in self)).operations ≤ 1000000 }
        ensures { result ≡ record self { actions = actions; plan = plan; own = self.actions } }
    {
        Job {
            channel: self.channel,
            start: self.start,
            addresses: self.addresses,
            actions,
            plan,
            program: self.program,
            script: self.script,
            own: self.actions,
            timed: self.timed,
        }
    }

    /// The same job without what its lines say by time and by command, and without the list of its faults beside its
    /// plan. It takes no memory.
    pub(crate) fn without_lines(self, alloc: Global) -> Job
        ensures { result ≡ record self { timed = nothing_yet } }
    {
        Job {
            channel: self.channel,
            start: self.start,
            addresses: self.addresses,
            actions: self.actions,
            plan: self.plan,
            program: self.program,
            script: self.script,
            own: self.own,
            timed: TimedLines::none(alloc),
        }
    }

    /// The same job with another plan.
    pub(crate) fn with_plan(self, plan: Plan) -> Job
        ensures { result ≡ record self { plan = plan } }
    {
        Job {
            channel: self.channel,
            start: self.start,
            addresses: self.addresses,
            actions: self.actions,
            plan,
            program: self.program,
            script: self.script,
            own: self.own,
            timed: self.timed,
        }
    }
}
