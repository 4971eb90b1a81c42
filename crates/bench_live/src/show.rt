//! The messages of a run as people read them, while it goes on.

use bench_decode::{Place, Shown, TextLine, write_columns, write_message};
use ch11_f1::{RECORD_HEAD, Record, body, put_record};
use ch11_layout::{StampKind, View};
use crossbeam_queue::ArrayQueue;
use mil_line::MOST_SENT;
use std::alloc::{AllocError, Global};
use std::io::Write;
use std::rt::Clock;
use std::sync::atomic::{AtomicU32, AtomicU64, Ordering};
use std::sync::{Arc, Wait};
use std::thread::{JoinHandle, Threads};
use std::time::Duration;
use std::{io, thread};

/// How many messages may wait to be shown.
const ROOM: usize = 4096;

/// How many milliseconds lie between two looks where none waits.
const PAUSE: u64 = 2;

/// How many bytes the word takes that tells how many messages a body has.
const COUNT: usize = 4;

/// How many bytes the body of a packet with one message takes at most.
const BODY: usize = COUNT + RECORD_HEAD + 2 * MOST_SENT;

/// A message that waits to be shown, as the body of a packet that has no other.
#[derive(Clone, Copy)]
struct Waiting {
    place: Place,
    body: [u8; BODY],
    len: usize,
}

impl Waiting {
    /// A message with its place; one whose stamp no recording can hold has no body.
    fn of(place: Place, record: &Record) -> Waiting {
        let mut body = [0; BODY];
        body[0] = 1;
        let mut len = 0;
        if record.stamp >> 48 == 0 && record.words.len() <= MOST_SENT {
            len = COUNT + put_record(record, &mut body[COUNT..]);
        }
        Waiting { place, body, len }
    }
}

/// What the writer of a run shares with the thread that shows its messages. Where that thread is slow messages find no
/// room and are not shown; the writer waits for nothing.
#[derive(Drop)]
pub struct Show {
    queue: ArrayQueue<Waiting>,
    /// How many messages the writer took.
    taken: AtomicU64,
    /// How many of them found no room.
    lost: AtomicU64,
    /// 1 where no message follows.
    ended: AtomicU32,
}

impl Show {
    /// Room for 4096 messages that wait.
    pub fn new(alloc: Global) -> Result<Show, AllocError> {
        Ok(Show {
            queue: ArrayQueue::new(alloc, ROOM)?,
            taken: AtomicU64::new(0),
            lost: AtomicU64::new(0),
            ended: AtomicU32::new(0),
        })
    }

    /// A message that the writer took, with its number in its channel, is shown where there is room for it.
    pub fn take<R: Wait>(&self, rt: &R, channel: u16, number: u32, record: &Record) {
        let before = self.taken.fetch_add(1, Ordering::SeqCst);
        let place = Place {
            number: before.saturating_add(1),
            channel,
            in_channel: u64::from(number),
        };
        if self.queue.push(rt, Waiting::of(place, record)).is_err() {
            self.lost.fetch_add(1, Ordering::SeqCst);
        }
    }

    /// No message follows.
    pub fn end(&self) {
        self.ended.store(1, Ordering::SeqCst);
    }

    /// How many messages found no room.
    pub fn lost(&self) -> u64 {
        self.lost.load(Ordering::SeqCst)
    }
}

/// Writes a message that waited.
fn write_waiting<W: Write>(line: &mut TextLine, out: &mut W, waiting: &Waiting) -> io::Result<()> {
    let end = waiting.len.min(BODY);
    let Ok(messages) = body::messages(&waiting.body[..end]) else {
        return Ok(());
    };
    let mut rest = messages;
    'messages: while let Some(seen) = rest.next() {
        write_message(
            line,
            out,
            &waiting.place,
            &View::of(StampKind::Counter, &seen),
        )?;
    }
    Ok(())
}

/// Writes the names of the columns and then each message as it comes, a line each, until no message follows; whenever
/// none waits what was written is flushed. A fault is the writer's.
pub fn show_all<R: Wait + Clock, W: Write>(
    rt: &R,
    show: &Show,
    line: &mut TextLine,
    out: &mut W,
) -> io::Result<()> {
    write_columns(line, out)?;
    for _ in rt.forever() {
        let ended = show.ended.load(Ordering::SeqCst) > 0;
        match show.queue.pop(rt) {
            Some(waiting) => write_waiting(line, out, &waiting)?,
            None => {
                if !line.text().is_empty() {
                    line.finish(out)?;
                }
                if ended {
                    return Ok(());
                }
                thread::sleep(rt, Duration::from_millis(PAUSE));
            }
        }
    }
    unreachable!()
}

/// A thread that shows the messages of a run on the standard output.
#[derive(Drop)]
pub struct Showing {
    show: Arc<Show, Global>,
    thread: JoinHandle<bool>,
}

impl Showing {
    /// Starts the thread. It fails where memory or the thread is refused.
    pub fn begin<R: Threads + Wait + Clock + Print + Clone + Drop + Send + Sync + 'static>(
        rt: &R,
        alloc: Global,
        shown: Shown,
    ) -> Result<Showing, AllocError> {
        let show = Arc::new(alloc, Show::new(alloc)?)?;
        let theirs = Arc::try_clone(&show)?;
        let own = rt.clone()?;
        let mut line = TextLine::new(alloc, shown)?;
        let started = thread::spawn(rt, move || {
            show_all(&own, &theirs, &mut line, &mut io::writer(&own)).is_ok()
        });
        match started {
            Ok(thread) => Ok(Showing { show, thread }),
            Err(_) => Err(AllocError),
        }
    }

    /// What the writer of the run shares with the thread.
    pub fn show(&self) -> &Show {
        &self.show
    }

    /// Waits until the messages that wait are shown, and answers how many were not since they had found no room;
    /// nothing where the standard output took no more.
    pub fn end<R: Threads>(self, rt: &R) -> Option<u64> {
        let Showing { show, thread } = self;
        show.end();
        if thread.join(rt) {
            Some(show.lost())
        } else {
            None
        }
    }
}
