//! The hosts: each sets a vector word on its terminal, and then asks for service.
ghost use Rattle.bench_mail.specs.Mail.{MayPost};
ghost use Rattle.std.specs.Prelude.{◌≡◌};

use crate::gate::Posted;
use bc_machine::HostAction;
use bench_mail::{Mailbox, Poster};
use mil_host::Action;
use std::sync::Wait;
use std::thread::{Threads, join};

/// A host of the terminal at an address: its channel, its vector word, and its right to post.
#[derive(Drop)]
pub struct Host<'a> {
    pub mailbox: &'a Mailbox,
    pub poster: Poster,
    pub channel: u16,
    pub address: u8,
    pub word: u16,
}

impl<'a> Host<'a> {
    /// The host of the terminal at this address of a channel, which sets this vector word.
    pub fn of(
        mailbox: &'a Mailbox,
        poster: Poster,
        channel: u16,
        address: u8,
        word: u16,
    ) -> Host<'a>
        ensures mailbox { result.mailbox.now ≡ mailbox.now }
        ensures poster { result.poster ≡ poster }
    {
        Host {
            mailbox,
            poster,
            channel,
            address,
            word,
        }
    }
}

/// Posts the vector word and the service request, and tells the gate. The mailbox has room for both, so that neither
/// comes back.
fn post_both<R: Wait>(rt: &R, gate: &Posted, host: Host<'_>)
    requires { MayPost 0 host.mailbox.now host.poster }
{
    let Host {
        mailbox,
        mut poster,
        channel,
        address,
        word,
    } = host;
    let vector = HostAction::Terminal {
        address,
        action: Action::Vector(word),
    };
    let service = HostAction::Terminal {
        address,
        action: Action::Service(true),
    };
    let vector = mailbox.post(rt, &mut poster, 0, vector);
    let service = mailbox.post(rt, &mut poster, 0, service);
    if vector.is_ok() && service.is_ok() {
        gate.tell(channel);
    }
}

/// The hosts post at the same time.
pub fn post_all<R: Threads + Wait + Sync>(rt: &R, gate: &Posted, first: Host<'_>, second: Host<'_>)
    requires { MayPost 0 first.mailbox.now first.poster × MayPost 0 second.mailbox.now second.poster }
{
    // What the hosts were told stands in the report.
    let _ = join(
        rt,
        move ||
            requires { MayPost 0 first.mailbox.now first.poster }
        { post_both(rt, gate, first) },
        move ||
            requires { MayPost 0 second.mailbox.now second.poster }
        { post_both(rt, gate, second) },
    );
}
