//! What a core is made of.
ghost use Rattle.std.specs.Prelude.{◌≡◌, ℕ, ◌+◌, ◌≤◌, length, IfOk, IfErr, replicate, None};
ghost use Rattle.fab_cq.specs.Counts.{no_counts};
ghost use Rattle.fab_cq.specs.Queues.{nothing_written};
ghost use Rattle.fab_rma.specs.Serving.{nothing_served};
ghost use Rattle.fab_rx.specs.Arriving.{nothing_arrived};
ghost use Rattle.fab_tx.specs.Transit.{nothing_accepted};
ghost use Rattle.fab_settling.specs.Members.{most_multis, nobody};
ghost use Rattle.fab_core.specs.Parts.{held_of};

use fab_av::Av;
use fab_base::{Caps, Info, NoMemory};
use fab_cq::{Counters, Queue};
use fab_match::Matcher;
use fab_mr::Regions;
use fab_record::record::Record;
use fab_rma::Target;
use fab_rx::Inbox;
use fab_settling::calls::CallRecord;
use fab_settling::members::Multis;
use fab_tx::Outbox;
use std::alloc::Global;
use std::marker::Model;

/// The machine of one endpoint (fi_endpoint(3)): what it received and transmits, its regions, its
/// completion queue, its counters and its address vector. Contracts see all that ever came and went out; stored is what is still
/// needed, bounded by the sizes, by what is unexpected, and by what waits to go out.
#[derive(Drop)]
pub struct Core<M: Matcher> {
    pub(crate) caps: Caps,
    pub(crate) selective: bool,
    pub(crate) most_tx: u32,
    pub(crate) most_rx: u32,
    pub(crate) most_message: u32,
    pub(crate) av: Av,
    pub(crate) rx: Inbox<M>,
    pub(crate) tx: Outbox,
    pub(crate) target: Target,
    pub(crate) cq: Queue,
    pub(crate) counters: Counters,
    pub(crate) calls: CallRecord,
    pub(crate) multis: Multis,
    pub(crate) alloc: Global,
}

impl<M: Matcher> Model for Core<M> {
    ghost use Rattle.std.specs.Prelude.{◌≡◌};
    ghost use Rattle.fab_core.specs.Parts.{IsTogether, Parts};
    ghost use Rattle.fab_core.specs.Requests.{IsServing};
    ghost use Rattle.fab_core.specs.Lent.{HasPlaces, IsLent};

    ghost Value = { Parts };

    ghost view = { λ c. record { caps = c.caps; selective = c.selective; most_message = c.most_message; av = c.av; rx = c.rx; tx = c.tx; target = c.target; cq = c.cq; counters = c.counters; calls = c.calls; multis = c.multis } };

    ghost invariant = { λ c. (c.most_tx ≡ c.tx.most) × (c.most_rx ≡ c.rx.most)
        × IsTogether (record { caps = c.caps; selective = c.selective; most_message = c.most_message; av = c.av; rx = c.rx; tx = c.tx; target = c.target; cq = c.cq; counters = c.counters; calls = c.calls; multis = c.multis })
        × IsServing c.rx.begun c.target
        × IsLent c.rx.rx c.rx.multis c.tx.tx c.cq c.calls c.multis
        × HasPlaces c.most_rx c.av.peers c.cq.size c.multis };
}

/// What a core is made of besides its address vector.
struct Halves<M: Matcher> {
    rx: Inbox<M>,
    tx: Outbox,
    target: Target,
    cq: Queue,
    calls: CallRecord,
    multis: Multis,
}

/// Takes the memory for so many peers.
fn make_halves<M: Matcher>(alloc: Global, info: &Info, peers: u32) -> Result<Halves<M>, NoMemory>
    requires size { 2 ≤ info.now.cq }
    ensures rx { IfOk result (λ h. h.rx ≡ nothing_arrived peers info.now.rx) }
    ensures tx { IfOk result (λ h. h.tx ≡ nothing_accepted peers info.now.tx) }
    ensures target { IfOk result (λ h. h.target ≡ nothing_served peers) }
    ensures cq { IfOk result (λ h. h.cq ≡ nothing_written info.now.cq) }
    ensures calls { IfOk result (λ h. h.calls ≡ 0) }
    ensures multis { IfOk result (λ h. h.multis ≡ nobody (most_multis info.now.rx peers info.now.cq)) }
{
    let tx = Outbox::new(alloc, peers, info.tx)?;
    let target = Target::new(alloc, peers)?;
    let cq = Queue::new(alloc, info.cq)?;
    let calls = Record::new(alloc, &())?;
    // so many may be posted, closing, or ended and unread, and one more
    let most_multis = info.rx as usize + peers as usize + info.cq as usize + 1;
    let multis = Multis::new(alloc, most_multis)?;
    let rx = Inbox::new(alloc, peers, info.rx)?;
    Ok(Halves {
        rx,
        tx,
        target,
        cq,
        calls,
        multis,
    })
}

impl<M: Matcher> Core<M> {
    /// The machine of an endpoint with these sizes and capabilities, for the peers of the address vector. It
    /// takes all memory that its calls need but for messages that come unexpected; where there is none, the
    /// address vector comes back.
    pub fn new(alloc: Global, info: &Info, selective: bool, av: Av) -> Result<Core<M>, Av>
        requires size { 2 ≤ info.now.cq }
        ensures ok { IfOk result (λ core. core ≡ record {
          caps = info.now.caps;
          selective = selective;
          most_message = info.now.message;
          av = av;
          rx = nothing_arrived av.peers info.now.rx;
          tx = nothing_accepted av.peers info.now.tx;
          target = nothing_served av.peers;
          cq = nothing_written info.now.cq;
          counters = no_counts;
          calls = 0;
          multis = nobody (most_multis info.now.rx av.peers info.now.cq);
        }) }
        ensures err { IfErr result (λ back. back ≡ av) }
    {
        av.known();
        let Ok(halves) = make_halves(alloc, info, av.peers()) else {
            return Err(av);
        };
        let Halves {
            rx,
            tx,
            target,
            cq,
            calls,
            multis,
        } = halves;
        Ok(Core {
            caps: info.caps,
            selective,
            most_tx: info.tx,
            most_rx: info.rx,
            most_message: info.message,
            av,
            rx,
            tx,
            target,
            cq,
            counters: Counters::new(),
            calls,
            multis,
            alloc,
        })
    }
}

impl<M: Matcher + Drop> Core<M> {
    /// Gives up everything but the address vector and the regions. Buffers of unfinished operations are dropped.
    pub fn into_parts(self) -> (Av, Regions)
        ensures av { result.0 ≡ self.av }
        ensures peers { result.0.peers ≡ length self.tx.tx.sent }
        ensures regions { result.1 ≡ self.target.regions }
    {
        (self.av, self.target.into_regions())
    }
}
