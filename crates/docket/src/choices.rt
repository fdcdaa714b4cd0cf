ghost use Rattle.std.specs.Prelude.{◌≡◌};
ghost use Rattle.docket.specs.Choices.{choice_of};

// One move of one role: roles are counted from 0 and a role's moves from 1.
#[derive(Clone, Copy)]
pub struct Choice {
    pub role: usize,
    pub number: u16,
}

// Move `c` of all, counted from 0 by role and then by move, where each role has so many moves. Behind the last move it is no role's
// move: an `Option` would put a case into callers that is never met.
pub fn choice_at(moves: &[u16], c: usize) -> Choice
    ensures { result ≡ choice_of moves.now c }
{
    let mut left = c;
    for (role, moves) in moves.iter().enumerate() {
        let count = usize::from(*moves);
        if left < count {
            return Choice {
                role,
                number: (left + 1) as u16,
            };
        }
        left -= count;
    }
    Choice { role: 0, number: 0 }
}
