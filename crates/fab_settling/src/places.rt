//! Where the buffers of multi-receives are (FI_MULTI_RECV of fi_msg(3)).
ghost use Rattle.std.specs.Prelude.{◌≡◌, map, position, vec_capacity};
ghost use Rattle.fab_model.specs.Matching.{remove_first};
ghost use Rattle.fab_settling.specs.Members.{ended_at, is_first, let_one_go, moved_up, one_read};

/// Where the buffer of a multi-receive is: with the receive under an id, or in the unread entry that gives it back,
/// before which so many are unread.
#[derive(Clone, Copy, Drop)]
pub enum Place {
    Open(u32),
    Ended(usize),
}

/// A multi-receive whose end was not read: its context, and where its buffer is.
#[derive(Clone, Copy, Drop)]
pub struct Member {
    pub ctx: u64,
    pub place: Place,
}

/// The place, once the buffer of the one under the id has come back with an entry before which so many are unread.
fn ended_at(place: Place, id: u32, before: usize) -> Place
    ensures { result ≡ ended_at id before place }
{
    match place {
        Place::Open(other) => {
            if other == id {
                Place::Ended(before)
            } else {
                Place::Open(other)
            }
        }
        Place::Ended(other) => Place::Ended(other),
    }
}

/// The place, once one more entry is read.
fn moved_up(place: Place) -> Place
    ensures { result ≡ moved_up place }
{
    match place {
        Place::Open(id) => Place::Open(id),
        Place::Ended(before) => Place::Ended(before.saturating_sub(1)),
    }
}

impl Member {
    /// Whether its end is the first unread entry.
    fn is_first(&self) -> bool
        ensures { result ≡ is_first self.now }
    {
        match self.place {
            Place::Open(_) => false,
            Place::Ended(before) => before == 0,
        }
    }
}

/// The buffer of the one under the id comes back with an entry before which so many are unread.
pub fn let_go(places: &mut Vec<Member>, id: u32, before: usize)
    ensures items { places.new.items ≡ map (let_one_go id before) places.old.items }
    ensures capacity { vec_capacity places.new ≡ vec_capacity places.old }
{
    for k in 0..places.len() {
        let Member { ctx, place } = places[k];
        places[k] = Member {
            ctx,
            place: ended_at(place, id, before),
        };
    }
}

fn move_up(places: &mut Vec<Member>)
    ensures items { places.new.items ≡ map one_read places.old.items }
    ensures capacity { vec_capacity places.new ≡ vec_capacity places.old }
{
    for k in 0..places.len() {
        let Member { ctx, place } = places[k];
        places[k] = Member {
            ctx,
            place: moved_up(place),
        };
    }
}

fn place_of_first(places: &[Member]) -> Option<usize>
    ensures { result ≡ position is_first places.now }
{
    places.iter().position(|member| member.is_first())
}

/// The one leaves whose end is the first unread entry.
fn remove_read(places: &mut Vec<Member>)
    ensures items { places.new.items ≡ remove_first is_first places.old.items }
    ensures capacity { vec_capacity places.new ≡ vec_capacity places.old }
{
    let Some(place) = place_of_first(places.as_slice()) else {
        return;
    };
    places.remove(place);
}

/// One more entry is read. The one leaves whose end it is.
pub fn read(places: &mut Vec<Member>)
    ensures items { places.new.items ≡ map one_read (remove_first is_first places.old.items) }
    ensures capacity { vec_capacity places.new ≡ vec_capacity places.old }
{
    remove_read(places);
    move_up(places);
}
