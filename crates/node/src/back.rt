// Going back (backtracking): turns of side 1 are dropped from the end, and the last turn left is set to side 1.
ghost use Rattle.std.specs.Prelude.{◌≡◌};
ghost use Rattle.model.specs.Search.{turned_back};
ghost use Rattle.node.specs.Walk.{Path, Kin, back_as, left_of, turns_in};

// Where the turn stands that was set to side 1, if one is left. A turn is the number 2 * clash + side.
// (Turns and depth stand apart, as a Trail and a Walk have them.)
// rposition would say it in one call: tried, and the proof didn't close (its clause counts from the end).
pub fn go_back(turns: &mut [u16; 1024], depth: usize) -> Option<usize>
    requires { Path turns.old depth }
    ensures { (back_as turns.new (left_of result) ≡ turned_back (turns_in turns.old depth)) × (Path turns.new (left_of result) × Kin turns.old depth turns.new (left_of result)) }
{
    for last in (0..depth).rev() {
        let turn = turns[last];
        if turn % 2 == 0 {
            turns[last] = turn + 1;
            return Some(last);
        }
    }
    None
}
