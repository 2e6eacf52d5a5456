//! An endpoint that speaks with one other peer.
//!
//! What is timed of a ping-pong is what each side does in turn: a message goes out, the receive of the one that
//! came before it is posted again, and reads follow until the next one came. A message is answered before its buffer is
//! posted again, while the answer is under way, and one receive more than messages can come stands posted for that.
use fab_bench::runs::Party;
use fabric::{Buf, COMPLETES, Calls, EndpointOver, Entry, NoMemory, Polled};
use std::alloc::Global;
use std::thread;

/// The tag of all messages.
const TAG: u64 = 7;

/// The most bytes that go out copied, by an inject call; of more, the buffer is handed over and comes back.
pub const COPIED: usize = 4096;

/// How many frames one read moves at most.
const BUDGET: u32 = 1;

/// After so many reads in a row that brought nothing another thread may go on.
const PATIENCE: u32 = 200;

/// How many bytes a word has.
const WORD: usize = 8;

/// An endpoint with receives that are posted again once they are complete, and the buffers of messages that were sent.
#[derive(Drop)]
pub struct Speaker<E: Calls + Drop> {
    alloc: Global,
    endpoint: EndpointOver<E>,
    other: u32,
    spare: Vec<Buf>,
    /// How many messages came that were not asked for yet.
    came: u64,
    /// The buffer of the last one that came, until it is posted again.
    late: Option<Buf>,
    /// Whether a message whose buffer comes back is not yet on the lane as a whole.
    under_way: bool,
    /// How many reads in a row brought nothing.
    idle: u32,
    /// Whether each message is written before it is sent and read when it came.
    is_touched: bool,
    /// What was read of messages that came, all in all.
    sum: u64,
}

/// What was read.
enum Taken {
    Came(Buf),
    Sent(Buf),
    Nothing,
}

/// What a completion says of buffers.
fn taken_of(entry: Entry) -> Taken {
    match entry {
        Entry::Received { buf, .. } => Taken::Came(buf),
        Entry::Sent { buf, .. } => Taken::Sent(buf),
        _ => Taken::Nothing,
    }
}

/// The next completion, after progress.
fn take_next<E: Calls + Drop>(endpoint: &mut EndpointOver<E>) -> Taken {
    match endpoint.poll(BUDGET) {
        Ok(Polled::Entry(entry)) => taken_of(entry),
        _ => Taken::Nothing,
    }
}

/// Posts a receive of any message.
fn post<E: Calls + Drop>(endpoint: &mut EndpointOver<E>, room: Buf) {
    let _ = endpoint.trecv(None, TAG, 0, room, 0);
}

/// Sends bytes that are copied.
fn send_copied<E: Calls + Drop>(endpoint: &mut EndpointOver<E>, other: u32, bytes: &[u8]) -> bool {
    endpoint.tinject(other, TAG, bytes, None).is_ok()
}

/// Sends a buffer, which comes back where it is refused.
fn send_whole<E: Calls + Drop>(
    endpoint: &mut EndpointOver<E>,
    other: u32,
    buf: Buf,
) -> Option<Buf> {
    match endpoint.tsend(other, TAG, buf, None, 0, COMPLETES) {
        Ok(()) => None,
        Err(refused) => Some(refused.buf),
    }
}

/// The buffer with this byte in each place.
fn written(buf: Buf, byte: u8) -> Buf {
    let mut bytes = buf.into_vec();
    bytes.fill(byte);
    Buf::from_vec(bytes)
}

/// The sum of the words of eight bytes, as the C benchmarks beside this one read what came.
fn sum_of(bytes: &[u8]) -> u64 {
    let mut sum = 0u64;
    for bytes in bytes.chunks_exact(WORD) {
        if let Some(word) = bytes.first_chunk::<WORD>() {
            sum = sum.wrapping_add(u64::from_le_bytes(*word));
        }
    }
    sum
}

impl<E: Calls + Drop> Speaker<E> {
    /// Posts so many receives and one more, of so many bytes each.
    pub fn new(
        alloc: Global,
        mut endpoint: EndpointOver<E>,
        other: u32,
        ahead: u64,
        room: usize,
        is_touched: bool,
    ) -> Result<Speaker<E>, NoMemory> {
        for _ in 0..ahead.saturating_add(1) {
            let room = Buf::zeros(alloc, room as u64)?;
            post(&mut endpoint, room);
        }
        Ok(Speaker {
            alloc,
            endpoint,
            other,
            spare: Vec::new(alloc),
            came: 0,
            late: None,
            under_way: false,
            idle: 0,
            is_touched,
            sum: 0,
        })
    }

    /// Reads the next completion: the buffer of a message that came is posted again later, and that of one that was
    /// sent is kept.
    fn read(&mut self) {
        match take_next(&mut self.endpoint) {
            Taken::Came(buf) => {
                self.came = self.came.saturating_add(1);
                self.look(&buf);
                self.post_late();
                self.late = Some(buf);
            }
            Taken::Sent(buf) => {
                self.under_way = false;
                self.keep(buf);
            }
            Taken::Nothing => return self.rest(),
        }
        self.idle = 0;
    }

    /// Reads a message that came, where messages are touched.
    fn look(&mut self, buf: &Buf) {
        if self.is_touched {
            self.sum = self.sum.wrapping_add(sum_of(buf.as_slice()));
        }
    }

    /// Posts the receive again whose message came last.
    fn post_late(&mut self) {
        if let Some(buf) = self.late.take() {
            post(&mut self.endpoint, buf);
        }
    }

    /// Lets another thread go on, after many reads that brought nothing.
    fn rest(&mut self) {
        self.idle = self.idle.saturating_add(1);
        if self.idle < PATIENCE {
            return;
        }
        self.idle = 0;
        thread::yield_now();
    }

    /// Keeps a buffer for a later message.
    fn keep(&mut self, buf: Buf) {
        let _ = self.spare.push(buf);
    }

    /// A buffer of as many bytes: one that was sent before, written anew where messages are touched, or a copy.
    fn buffer(&mut self, bytes: &[u8]) -> Option<Buf> {
        match self.spare.pop() {
            Some(buf) if buf.as_slice().len() == bytes.len() => Some(self.ready(buf)),
            _ => Buf::copy(self.alloc, bytes).ok(),
        }
    }

    /// A buffer that was sent before, with the bytes of the next message, which hang on what came: so nothing is left out of the program.
    fn ready(&self, buf: Buf) -> Buf {
        if self.is_touched {
            return written(buf, (self.sum % 256) as u8);
        }
        buf
    }

    /// Sends a message whose buffer comes back, and tells whether all of it is on the lane: whoever stops before
    /// would leave the rest unsent.
    fn send_through(&mut self, bytes: &[u8]) -> bool {
        if !self.under_way {
            self.under_way = self.send(bytes);
        }
        self.post_late();
        let was = self.under_way;
        self.read();
        was && !self.under_way
    }

    /// Sends a message whose buffer comes back.
    fn send(&mut self, bytes: &[u8]) -> bool {
        let Some(buf) = self.buffer(bytes) else {
            return false;
        };
        match send_whole(&mut self.endpoint, self.other, buf) {
            None => true,
            Some(back) => {
                self.keep(back);
                false
            }
        }
    }
}

impl<E: Calls + Drop> Party for Speaker<E> {
    fn put(&mut self, bytes: &[u8]) -> bool {
        if bytes.len() > COPIED {
            return self.send_through(bytes);
        }
        let done = send_copied(&mut self.endpoint, self.other, bytes);
        self.post_late();
        if !done {
            self.read();
        }
        done
    }

    fn take(&mut self, _into: &mut [u8]) -> bool {
        if self.came == 0 {
            self.post_late();
            self.read();
        }
        if self.came == 0 {
            return false;
        }
        self.came -= 1;
        true
    }
}
