// The moved events put into a list.
ghost use Rattle.std.specs.Prelude.{◌≡◌, ◌+◌, ◌≤◌, [], length};
ghost use Rattle.records.specs.Bytes.{placed, over};
ghost use Rattle.lists.specs.Lists.{push};
ghost use Rattle.straighten.specs.Tables.{listed};

// An event, if it is moved; and where the next one goes.
fn put_moved(list: &mut [u32], at: usize, moved: bool, event: u32) -> usize
    requires { at + length (push moved event []) ≤ length list.old }
    ensures list_after { list.new ≡ placed list.old at (push moved event []) }
    ensures value { result ≡ at + length (push moved event []) }
{
    if moved {
        list[at] = event;
        return at + 1;
    }
    at
}

// The moved events, rising, from the list's first entry; how many they are.
pub fn list_moved(moves: &[bool], count: usize, list: &mut [u32]) -> usize
    requires count_in_bounds { (count ≤ length moves.now) × (count ≤ 2048) }
    requires count_in_bounds_2 { length (listed moves.now count) ≤ length list.old }
    ensures list_after { list.new ≡ over (listed moves.now count) list.old }
    ensures value { result ≡ length (listed moves.now count) }
{
    let mut number = 0;
    for i in 0..count {
        number = put_moved(list, number, moves[i], i as u32);
    }
    number
}
