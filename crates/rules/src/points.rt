// Rules D and E, of read points.
ghost use Rattle.std.specs.Prelude.{◌≡◌, ◌≤◌, ◌<◌, length, get_or};
ghost use Rattle.events.specs.declared.event.Event.{Event};
ghost use Rattle.event_log.specs.Starts.{start_of};
ghost use Rattle.rules.specs.Orders.{broken};
ghost use Rattle.rules.specs.Walks.{no_writer, right_value};
ghost use Rattle.rules.specs.Points.{rule_by};

use crate::first::first_failing;
use crate::walk::Points;
use events::event::Event;
use opacity::verdict::Rule;
use reads::NO_POINT;

// The place of an event's transaction.
pub fn place_at(place: &[u16; 64], e: Event) -> u16
    requires { e.transaction < 64 }
    ensures { result ≡ get_or place.now e.transaction 0 }
{
    place[usize::from(e.transaction)]
}

impl Points<'_> {
    // Rule D of the point at gap g of the read e, whose reader is at place own: no writer of the register
    // but the reader is placed between the point and the reader, on whichever side of it the point lies.
    fn no_writer_between(&self, own: usize, g: usize, e: Event) -> bool
        requires { (own < 64) × (g ≤ 64) × (e.register < 32) }
        ensures { result ≡ no_writer self.now.log.now self.now.link.now self.now.writers.now own g e }
    {
        let lo = g.min(own);
        let hi = g.max(own);
        self.last_writer(own, e.register, lo, hi).is_none()
    }

    // Rule E of the point at gap g of the read e, whose reader is at place own: the value is that of the
    // last writer but the reader before the gap, or the register's start value.
    fn value_at_gap(&self, own: usize, g: usize, e: Event) -> bool
        requires { (g ≤ 64) × (e.register < 32) }
        ensures { result ≡ right_value (start_of self.now.starts.now) self.now.log.now
            self.now.link.now self.now.writers.now own g e }
    {
        let start = self.starts[usize::from(e.register)];
        e.value == self.last_writer(own, e.register, 0, g).unwrap_or(start)
    }

    // Does a rule of points hold at event i? It does where i has no point.
    pub fn holds_at(&self, rule: Rule, i: usize) -> bool
        requires { i < length self.now.log.now }
        ensures { result ≡ rule_by self.now rule i }
    {
        let gap = self.gaps[i];
        if gap == NO_POINT {
            return true;
        }
        let e = self.log[i];
        let own = usize::from(place_at(self.place, e));
        let g = usize::from(gap);
        // Kept as arms: the rule is the checker's, whose five rules share one type, and two are of points.
        match rule {
            Rule::D => self.no_writer_between(own, g, e),
            Rule::E => self.value_at_gap(own, g, e),
            Rule::A | Rule::B | Rule::C => true,
        }
    }

    // The first event that breaks a rule of points.
    pub fn first_broken(&self, rule: Rule) -> Option<usize>
        ensures { result ≡ broken (rule_by self.now rule) (length self.now.log.now) }
    {
        first_failing(self.log.len(), |i| self.holds_at(rule, i))
    }
}
