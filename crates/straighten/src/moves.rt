// Which read points are moved, and where the points of a marking stand then.
ghost use Rattle.std.specs.Prelude.{◌≡◌, true, false, ◌≤◌, ◌<◌, length};
ghost use Rattle.lists.specs.Filled.{Front};
ghost use Rattle.events.specs.Questions.{readable};
ghost use Rattle.rules.specs.Points.{rule_by};
ghost use Rattle.straighten.specs.Tables.{breaks_by, gap_by};

use events::event::Event;
use opacity::verdict::Rule;
use rules::points::place_at;
use rules::walk::Points;

// Does the point of event i break D or E?
fn breaks(points: &Points, i: usize) -> bool
    requires { i < length points.now.log.now }
    ensures { result ≡ breaks_by (rule_by points.now) i }
{
    !points.holds_at(Rule::D, i) || !points.holds_at(Rule::E, i)
}

// The events whose points break D or E.
pub fn moves_of(points: &Points, moves: &mut [bool])
    requires { length points.now.log.now ≤ length moves.old }
    ensures { Front false (breaks_by (rule_by points.now)) (length points.now.log.now) moves.new }
{
    for i in 0..points.log.len() {
        moves[i] = breaks(points, i);
    }
}

// Moves the points of the events that the table says, each to its reader's place.
#[tactic(auto, using(links::proofs::LogLaws::readable_log))]
pub fn move_points(log: &[Event], place: &[u16; 64], moves: &[bool], gaps: &mut [u16])
    requires log_value { readable log.now ≡ true }
    requires log_in_bounds { (length log.now ≤ length moves.now) × (length log.now ≤ length gaps.old) }
    ensures { Front 0 (gap_by log.now place.now moves.now gaps.old)
        (length log.now) gaps.new }
{
    for (i, e) in log.iter().enumerate() {
        if moves[i] {
            gaps[i] = place_at(place, *e);
        }
    }
}
