// Straightened read points: outcomes and order of a marking are kept, and so is every point that
// breaks neither rule D nor rule E; each other one is moved to its reader's place. Proved: result,
// output and list as one equation, refusals and broken rules among them (specs/Answer); that it
// succeeds exactly if outcomes and order justify the history, and that the checker accepts what it
// writes (proofs/Theorems). A point that stays is judged twice, by itself and with all the others.
#![tactic(auto)]

ghost use Rattle.std.specs.Prelude.{◌≡◌, true, ◌+◌, ◌*◌, ◌-◌, ◌/◌, ◌≤◌, leb, length};
ghost use Rattle.lists.specs.Lists.{◌and◌};
ghost use Rattle.events.specs.Questions.{readable};
ghost use Rattle.event_log.specs.Lent.{columns_of};
ghost use Rattle.event_log.specs.Rows.{IsRoom};
ghost use Rattle.event_log.specs.Starts.{start_of};
ghost use Rattle.opacity.specs.Marking.{verdict};
ghost use Rattle.rules.specs.Judge.{content};
ghost use Rattle.marking_reader.specs.File.{known, file_read};
ghost use Rattle.marking_reader.specs.State.{Kept};
ghost use Rattle.marking_writer.specs.Whole.{bytes_in};
ghost use Rattle.straighten.specs.Answer.{gives, after_verdict, after_file, straightened_answer};
ghost use Rattle.straighten.specs.Tables.{Moved, listed};

mod list;
mod moves;

use crate::list::list_moved;
use crate::moves::{move_points, moves_of};
use event_log::admit::admit;
use event_log::columns::History;
use event_log::rows::{BLANK, MOST, SHORT, transactions_begun};
use events::event::Event;
use events::refusal::Refusal;
use links::tables::tables_of;
use links::writes::links;
use marking_reader::read::read_marking;
use marking_reader::step::MarkedLog;
use marking_writer::write_marking;
use opacity::verdict::{Rule, Verdict};
use reads::{NO_POINT, own_writes};
use records::record::Record;
use rules::judge::{judge_after, judge_places};
use rules::places::{places_of, writers_of};
use rules::walk::Points;

// A marking straightened: the length of what was written, and the number of events moved.
#[derive(Clone, Copy)]
pub struct Straightened {
    pub length: usize,
    pub moved: usize,
}

// Why nothing is written: a rule is broken wherever the points are; a question refuses the history or a
// lent buffer, with its event; or one refuses the marking, with its byte.
#[derive(Clone, Copy)]
pub enum Unstraightened {
    Broken {
        rule: Rule,
        event: usize,
        transaction: usize,
    },
    Refused(Refusal),
    MarkingRefused(Refusal),
}

// What is written, by the verdict: only where no rule is broken the marking in the arrays, and the
// moved events. There is room for both.
fn write_moved(
    verdict: Verdict,
    begun: usize,
    order: &[u16; 64],
    outcomes: &[u8; 64],
    gaps: &[u16],
    moves: &[bool],
    output: &mut [u8],
    moved: &mut [u32],
) -> Result<Straightened, Unstraightened>
    requires begun_bound { (begun ≤ 64) × (length gaps.now ≤ 2048) × (length gaps.now ≤ length moves.now) }
    requires gaps_in_bounds { length (bytes_in order.now outcomes.now begun gaps.now) ≤ length output.old }
    requires gaps_in_bounds_2 { length (listed moves.now (length gaps.now)) ≤ length moved.old }
    ensures { gives result output.new moved.new
        ≡ after_verdict (bytes_in order.now outcomes.now begun gaps.now)
        (listed moves.now (length gaps.now)) output.old moved.old verdict }
{
    if let Verdict::Broken {
        rule,
        event,
        transaction,
    } = verdict
    {
        return Err(Unstraightened::Broken {
            rule,
            event,
            transaction,
        });
    }
    let length = write_marking(order, outcomes, begun, gaps, output);
    let number = list_moved(moves, gaps.len(), moved);
    Ok(Straightened {
        length,
        moved: number,
    })
}

// Moves the points of a marking that was read, and judges what comes out, both by the same tables: a
// point that breaks D or E goes to its reader's place.
fn judge_moved(
    starts: &[u32; 32],
    marked: &MarkedLog,
    order: &[u16; 64],
    outcomes: &[u8; 64],
    gaps: &mut [u16],
    moves: &mut [bool],
) -> Verdict
    requires kept { Kept marked.now.log.now order.now outcomes.now gaps.old }
    requires log_in_bounds { length marked.now.log.now ≤ length moves.old }
    ensures value { result ≡ verdict (start_of starts.now) marked.now.log.now
        (content marked.now.log.now order.now outcomes.now gaps.new) }
    ensures moved { Moved (start_of starts.now) marked.now.log.now order.now outcomes.now
        gaps.old gaps.new moves.new }
{
    let log = marked.log;
    let mut link = [None; MOST];
    links(log, &mut link);
    let place = places_of(order, marked.begun);
    let tables = tables_of(log);
    let writers = writers_of(order, outcomes, &tables, marked.begun);
    let given = Points {
        starts,
        log,
        link: &link,
        writers: &writers,
        place: &place,
        gaps,
    };
    moves_of(&given, moves);
    move_points(log, &place, moves, gaps);
    let placed = judge_places(log, &tables, &place, outcomes, marked.begun);
    let moved = Points {
        starts,
        log,
        link: &link,
        writers: &writers,
        place: &place,
        gaps,
    };
    judge_after(placed, &moved, marked.own)
}

// Question 15, of a readable marking's length: is the output as long, and has the list an entry for every
// store read? What is left behind head and places are the points, one for each store read.
fn has_room(marking: usize, begun: usize, output: usize, entries: usize) -> bool
    requires { (begun ≤ 64) × (6 + 8 * begun ≤ marking) }
    ensures { result ≡ (leb marking output and leb ((marking - (6 + 8 * begun)) / 10) entries) }
{
    let points = (marking - (Record::WHOLE_HEAD + Record::WHOLE_PLACE * begun))
        / Record::WHOLE_POINT;
    marking <= output && points <= entries
}

// Straightens the read points of a marking file for the readable history in a log: the marking's
// questions, 15, and then the rules.
pub fn straighten_log(
    starts: &[u32; 32],
    log: &[Event],
    file: &[u8],
    output: &mut [u8],
    moved: &mut [u32],
) -> Result<Straightened, Unstraightened>
    requires { readable log.now ≡ true }
    ensures { gives result output.new moved.new
        ≡ after_file (start_of starts.now) log.now (length log.now)
        file.now output.old moved.old
        (file_read (known log.now) file.now) }
{
    let begun = transactions_begun(log);
    let mut own = [0u16; MOST];
    own_writes(log, &mut own);
    let marked = MarkedLog {
        log,
        own: &own,
        begun,
    };
    let mut order = [0u16; 64];
    let mut outcomes = [0u8; 64];
    let mut gaps = [NO_POINT; MOST];
    if let Err(refusal) = read_marking(&marked, file, &mut order, &mut outcomes, &mut gaps) {
        return Err(Unstraightened::MarkingRefused(refusal));
    }
    if !has_room(file.len(), begun, output.len(), moved.len()) {
        return Err(Unstraightened::Refused(Refusal {
            question: 15,
            at: log.len(),
        }));
    }
    let mut moves = [false; MOST];
    let verdict = judge_moved(starts, &marked, &order, &outcomes, &mut gaps, &mut moves);
    write_moved(
        verdict,
        begun,
        &order,
        &outcomes,
        &gaps[..log.len()],
        &moves,
        output,
        moved,
    )
}

// The straightening, by way of so many rows: the question that refuses the history, or the straightening
// for the rows taken in.
fn straighten_within<const N: usize>(
    history: &History,
    file: &[u8],
    output: &mut [u8],
    moved: &mut [u32],
) -> Result<Straightened, Unstraightened>
    requires rows { IsRoom history.now.count N }
    requires few { N ≤ 2048 }
    ensures { gives result output.new moved.new
        ≡ straightened_answer history.now.edition history.now.starts.now
        (columns_of history.now.columns) history.now.count file.now output.old moved.old }
{
    let mut rows = [BLANK; N];
    match admit(history, &mut rows) {
        Ok(()) => { straighten_log(history.starts, &rows[..history.count], file, output, moved) }
        Err(refusal) => Err(Unstraightened::Refused(refusal)),
    }
}

// Straightens the read points of a marking file for a history: the marking goes into the output, the
// moved events, rising, into the list. A short history does not pay for the rows of a long one.
pub fn straighten(
    history: &History,
    file: &[u8],
    output: &mut [u8],
    moved: &mut [u32],
) -> Result<Straightened, Unstraightened>
    ensures { gives result output.new moved.new
        ≡ straightened_answer history.now.edition history.now.starts.now
        (columns_of history.now.columns) history.now.count file.now output.old moved.old }
{
    if history.count <= SHORT {
        straighten_within::<SHORT>(history, file, output, moved)
    } else {
        straighten_within::<MOST>(history, file, output, moved)
    }
}
