// The lines of the scripts that the programs replay: the words of a call (`words`), what lends a line or prints (`text`), and the line
// that answers a call (`line`).
#![tactic(auto)]

pub mod line;
pub mod scan;
pub mod text;
pub mod words;

ghost use Rattle.std.specs.Prelude.{◌≡◌, length};

pub type Space = [u8; 524288];

// Room for a script. The `ensures` gives the length, which a program's proof would otherwise count out (tried: it runs out of stack).
pub fn space() -> Space
    ensures { 524288 ≡ length result }
{
    [0; 524288]
}
