//! Room for the bytes of one reply.
ghost use Rattle.std.specs.Prelude.{◌≡◌, ◌≤◌, length, IfOk};

use fab_base::{Buf, NoMemory};
use std::alloc::Global;
use std::marker::Model;
use std::mem::replace;

/// Memory for the bytes of one reply. Contracts see for how many.
#[derive(Drop)]
pub(crate) struct Room {
    bytes: Vec<u8>,
}

impl Model for Room {
    ghost use Rattle.std.specs.Prelude.{◌≡◌, ℕ, [], vec_capacity};

    ghost Value = { ℕ };

    ghost view = { λ r. vec_capacity r.bytes };

    ghost invariant = { λ r. r.bytes.items ≡ [] };
}

impl Room {
    /// Room for no bytes. Takes no memory.
    pub(crate) fn none(alloc: Global) -> Room
        ensures { result ≡ 0 }
    {
        Room {
            bytes: Vec::new(alloc),
        }
    }

    /// Room for so many bytes.
    pub(crate) fn of(alloc: Global, len: u32) -> Result<Room, NoMemory>
        ensures { IfOk result (λ room. room ≡ len) }
    {
        match Vec::with_capacity(alloc, len as usize) {
            Ok(bytes) => Ok(Room { bytes }),
            Err(_) => Err(NoMemory),
        }
    }

    /// Copies the bytes into the room and hands it out. Where there are none, its memory is let go.
    pub(crate) fn fill(&mut self, bytes: &[u8]) -> Buf
        requires { length bytes.now ≤ self.old }
        ensures bytes { result ≡ bytes.now }
        ensures used { self.new ≡ 0 }
    {
        let alloc = *self.bytes.allocator();
        let mut room = replace(&mut self.bytes, Vec::new(alloc));
        if bytes.is_empty() {
            return Buf::empty(alloc);
        }
        let _ = room.extend_from_slice(bytes);
        Buf::from_vec(room)
    }
}
