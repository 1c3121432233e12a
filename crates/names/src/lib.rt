// A table of names, each ended by a zero byte: what an OPEN may ask a device's end for.
#![tactic(auto)]

ghost use Rattle.std.specs.Prelude.{◌≡◌, ◌≤◌, ◌<◌, length};
ghost use Rattle.names.specs.Names.{starts, stands, no_zero, place_from, find_name, ends_in_zero, asked_name};

// Whether a name begins at a place: at the table's start, or behind a zero byte.
#[tactic(auto, using(crate::proofs::NamesLaws::start_rules))]
fn starts(names: &[u8], at: usize) -> bool
    requires { at ≤ length names.now }
    ensures { result ≡ starts names.now at }
{
    if at == 0 {
        return true;
    }
    names[at - 1] == 0
}

// Whether these bytes stand at a place, and a zero byte behind them.
#[tactic(auto, unfolding(crate::specs::Names::stands))]
fn stands(names: &[u8], name: &[u8], at: usize) -> bool
    requires { at ≤ length names.now }
    ensures { result ≡ stands names.now name.now at }
{
    let end = at + name.len();
    end < names.len() && names[end] == 0 && &names[at..end] == name
}

// Whether a text has no zero byte.
#[tactic(auto, unfolding(crate::specs::Names::no_zero))]
fn no_zero(text: &[u8]) -> bool
    ensures { result ≡ no_zero text.now }
{
    text.iter().all(|b| *b != 0)
}

// The first place at which the name stands.
fn place(names: &[u8], name: &[u8]) -> Option<usize>
    ensures { result ≡ place_from names.now name.now 0 (length names.now) }
{
    (0..names.len()).find(|at| starts(names, *at) && stands(names, name, *at))
}

// The place of a name in a table, where it begins.
#[tactic(auto, unfolding(crate::specs::Names::find_name))]
pub fn find(names: &[u8], name: &[u8]) -> Option<usize>
    ensures { result ≡ find_name names.now name.now }
{
    if no_zero(name) {
        return place(names, name);
    }
    None
}

// Whether a text ends in a zero byte.
#[tactic(auto, unfolding(crate::specs::Names::ends_in_zero))]
fn ends_in_zero(text: &[u8]) -> bool
    ensures { result ≡ ends_in_zero text.now }
{
    text.len() > 0 && text[text.len() - 1] == 0
}

// The name that an OPEN asks for: its destination, less one zero byte at the end.
#[tactic(auto, using(crate::proofs::NamesLaws::end_rules), unfolding(crate::specs::Names::asked_name))]
pub fn asked(destination: &[u8]) -> &[u8]
    ensures { result.now ≡ asked_name destination.now }
{
    if ends_in_zero(destination) {
        return &destination[..destination.len() - 1];
    }
    destination
}
