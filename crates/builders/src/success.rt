//! What is printed where all is well.

ghost use Rattle.std.specs.Prelude.{◌≡◌, ◌≤◌, length};
ghost use Rattle.builders.specs.Success.{ok_text};

use xm_report::Pen;

/// The line that names what is counted, and how many there are.
#[tactic(auto, unfolding(crate::specs::Success::ok_text))]
pub fn ok_line(counted: &[u8], count: usize) -> Pen
    // Called with a name of at most 20 bytes.
    requires { length counted.now ≤ 20 }
    // The line `ok NAME=COUNT`.
    ensures { result ≡ ok_text counted.now count }
{
    let mut pen = Pen::new();
    pen.text(b"ok ");
    pen.field(counted, count as u64);
    pen.text(b"\n");
    pen
}
