//! A work that posts to a table of least numbers, and the seats of two workers.

ghost use Rattle.std.specs.Prelude.{◌≡◌, ◌<◌, All, IfOk, IfSome, length};

use share_work::{LeastSeat, LeastTable, Work};
use std::alloc::{AllocError, Global};

/// Posts numbers at word 0, and has no memory for one of them.
#[derive(Drop)]
pub struct Posting<'t> {
    pub table: &'t LeastTable,
    pub refused: u64,
}

impl Work<u64> for Posting<'_> {
    ghost use Rattle.std.specs.Prelude.{⊤, ◌≡◌, ◌<◌, All, IfSome};
    ghost use Rattle.share_work.specs.Posts.{NONE};

    type Out = u64;

    type Seat = LeastSeat;

    ghost takes = { λ _ _ number. number < NONE };

    ghost fits = { λ w s. (s.table ≡ w.table.now.table) × (0 < w.table.now.count) };

    ghost gives = { λ _ _ _ _. ⊤ };

    ghost number = { λ _ s. s.view.parts };

    ghost holds = { λ _ _ _ _. ⊤ };

    ghost adds = { λ _ _ _ _ _. ⊤ };

    fn piece(
        &self,
        alloc: Global,
        seat: &mut LeastSeat,
        _first: usize,
        items: &[u64],
    ) -> Result<Vec<u64>, AllocError> {
        for number in items {
            if *number == self.refused {
                return Err(AllocError);
            }
            self.table.post(seat, 0, *number);
        }
        Vec::from_slice(alloc, items)
    }
}

/// Two seats that have all parts of a table.
pub fn two_seats(
    alloc: Global,
    table: &LeastTable,
    seat: LeastSeat,
) -> Result<Vec<LeastSeat>, AllocError>
    requires { (seat.table ≡ table.now.table) × (1 < seat.view.parts) }
    ensures { IfOk result (λ seats. (length seats.items ≡ 2)
        × All (λ s. s.table ≡ table.now.table) seats.items) }
{
    let mut seat = seat;
    let mut seats = Vec::with_capacity(alloc, 2)?;
    seats.push(table.split(&mut seat, 1))?;
    seats.push(seat)?;
    Ok(seats)
}

/// All seats in one.
pub fn join_seats(table: &LeastTable, seats: Vec<LeastSeat>) -> Option<LeastSeat>
    requires { All (λ s. s.table ≡ table.now.table) seats.items }
    ensures { IfSome result (λ s. s.table ≡ table.now.table) }
{
    let mut seats = seats;
    let mut seat = seats.pop()?;
    while let Some(other) = seats.pop() {
        table.join(&mut seat, other);
    }
    Some(seat)
}
