//! Numbers in printed lines.

ghost use Rattle.std.specs.Prelude.{◌≡◌, ◌+◌, ◌≤◌, ◌++◌, length, decimal};

use text_cols::Line;

/// Adds a text and a number.
#[tactic(auto, using(text_cols::proofs::Lengths::lengths))]
pub fn put_number(line: &mut Line, text: &[u8], n: u32)
    requires { length line.old + length text.now + 10 ≤ 256 }
    ensures text { line.new ≡ line.old ++ (text.now ++ decimal n) }
    ensures short { length line.new ≤ length line.old + length text.now + 10 }
{
    line.put(text);
    line.decimal(u128::from(n));
}
