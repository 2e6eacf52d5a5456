//! Where the words of the lanes and pools stand, and the cells of the lanes.
ghost use Rattle.std.specs.Prelude.{◌≡◌, ◌+◌, ◌*◌, ◌<◌, ◌≤◌};
ghost use Rattle.fab_table.specs.Views.{lane_of, put_word, got_word, still_word, pool_word, word_count};

use crate::lane_table::LaneTable;

/// So many words lie from one that threads count in to the next: 128 bytes. Each of them has cache lines of its own so, also where a
/// processor fetches two at a time: on a line that two words share, each write of the one makes whoever looks at the other wait.
const APART: u64 = 16;

/// So many words a lane has: that of its sender, which counts the frames posted, and that of its receiver, which counts those taken.
const LANE: u64 = 2 * APART;

/// The word that nobody writes lies so far behind that of the sender, in the middle of the two.
const STILL: u64 = APART / 2;

/// How many words the lanes between so many peers have, and the pools behind them.
pub(crate) fn count_words(peers: u64, pool: u64) -> usize
    requires { (peers ≤ 64) × (pool ≤ 1024) }
    ensures { result ≡ word_count peers pool }
{
    (peers * peers * LANE + peers * pool * APART) as usize
}

impl LaneTable {
    /// The number of a lane. Those to one receiver lie side by side, since it looks at all of them in turn: words that lay far
    /// apart would share a few places of its cache.
    fn lane(&self, src: u64, dest: u64) -> u64
        requires { (src < self.now.peers) × (dest < self.now.peers) }
        ensures number { result ≡ lane_of self.now.peers src dest }
        ensures below { result < self.now.peers * self.now.peers }
    {
        dest * self.peers + src
    }

    /// The place of a cell of a lane, by the cell's number there: less than [`room`](LaneTable::room).
    pub fn cell_place(&self, src: u64, dest: u64, cell: u64) -> usize
        requires lane { (src < self.now.peers) × (dest < self.now.peers) }
        requires cell { cell < self.now.room }
        ensures { result ≡ lane_of self.now.peers src dest * self.now.room + cell }
    {
        (self.lane(src, dest) * self.room + cell) as usize
    }

    /// The word that counts the frames posted to a lane.
    pub(crate) fn put_word(&self, src: u64, dest: u64) -> usize
        requires { (src < self.now.peers) × (dest < self.now.peers) }
        ensures word { result ≡ put_word (lane_of self.now.peers src dest) }
        ensures inside { result < self.now.table.shared.table_id.words }
    {
        (self.lane(src, dest) * LANE) as usize
    }

    /// The word that counts the frames taken of a lane.
    pub(crate) fn got_word(&self, src: u64, dest: u64) -> usize
        requires { (src < self.now.peers) × (dest < self.now.peers) }
        ensures word { result ≡ got_word (lane_of self.now.peers src dest) }
        ensures inside { result < self.now.table.shared.table_id.words }
    {
        (self.lane(src, dest) * LANE + APART) as usize
    }

    /// The word of a lane that nobody writes: it stays in the sender's cache.
    pub(crate) fn still_word(&self, src: u64, dest: u64) -> usize
        requires { (src < self.now.peers) × (dest < self.now.peers) }
        ensures word { result ≡ still_word (lane_of self.now.peers src dest) }
        ensures inside { result < self.now.table.shared.table_id.words }
    {
        (self.lane(src, dest) * LANE + STILL) as usize
    }

    /// The word of a slot, among those of all pools.
    pub(crate) fn pool_word(&self, slot: u64) -> usize
        requires { slot < self.now.peers * self.now.pool }
        ensures word { result ≡ pool_word self.now.peers slot }
        ensures inside { result < self.now.table.shared.table_id.words }
    {
        (self.peers * self.peers * LANE + slot * APART) as usize
    }
}
