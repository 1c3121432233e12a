// The feature list of a CNXN's identity text.
#![tactic(auto)]

ghost use Rattle.std.specs.Prelude.{◌≡◌, ◌+◌, ◌≤◌, ◌==◌, length, drop, option_map, option_copied, IfSome};
ghost use Rattle.std.specs.List.{position};
ghost use Rattle.features.specs.Features.{Behind, begins, named, after_name, first_part, any_same, parts_of, has_feature};

const NAME: &[u8] = b"features=";

// The first place of a byte.
fn place_of(text: &[u8], byte: u8) -> Option<usize>
    ensures { result ≡ position (λ b. b == byte) text.now }
{
    text.iter().position(|b| *b == byte)
}

// The text up to its first `cut`, or all of it.
#[tactic(auto, using(crate::proofs::FeaturesLaws::part_rules))]
fn first_part(text: &[u8], cut: u8) -> &[u8]
    ensures { result.now ≡ first_part cut text.now }
{
    match place_of(text, cut) {
        Some(end) => &text[..end],
        None => text,
    }
}

// The place behind the second colon.
#[tactic(auto, using(crate::proofs::FeaturesLaws::colon_rules))]
fn after_colons(banner: &[u8]) -> Option<usize>
    ensures { Behind banner.now result }
{
    let first = place_of(banner, b':')? + 1;
    let second = place_of(&banner[first..], b':')? + 1;
    Some(first + second)
}

// Whether a property begins at `at`: behind a semicolon, or at `start`, behind the second colon.
#[tactic(auto, using(crate::proofs::FeaturesLaws::begin_rules))]
fn is_beginning(banner: &[u8], at: usize, start: Option<usize>) -> bool
    requires at_in_bounds { at ≤ length banner.now }
    requires behind { Behind banner.now start }
    ensures { result ≡ begins banner.now at }
{
    at > 0 && (start == Some(at) || banner[at - 1] == b';')
}

// Whether the property `features` begins at `at`.
#[tactic(auto, using(crate::proofs::FeaturesLaws::name_rules))]
fn is_named(banner: &[u8], at: usize, start: Option<usize>) -> bool
    requires at_in_bounds { at + 9 ≤ length banner.now }
    requires behind { Behind banner.now start }
    ensures { result ≡ named banner.now at }
{
    is_beginning(banner, at, start) && &banner[at..at + NAME.len()] == NAME
}

// The first place at which the property `features` begins.
fn find_name(banner: &[u8]) -> Option<usize>
    ensures in_bounds { IfSome result (λ at. at + 9 ≤ length banner.now) }
    ensures list { option_map (λ at. drop (at + 9) banner.now) result ≡ after_name banner.now 0 (length banner.now) }
{
    let start = after_colons(banner);
    let places = banner.len().saturating_sub(NAME.len() - 1);
    (0..places).find(|at| is_named(banner, *at, start))
}

// What follows the name of the first property `features`.
fn find_list(banner: &[u8]) -> Option<&[u8]>
    ensures { option_copied result ≡ after_name banner.now 0 (length banner.now) }
{
    let at = find_name(banner)?;
    Some(&banner[at + NAME.len()..])
}

// Whether one part of the list equals the name.
fn any_part(list: &[u8], name: &[u8]) -> bool
    ensures { result ≡ any_same (parts_of list.now) name.now }
{
    list.split(|b| *b == b',').any(|part| part == name)
}

// Whether an identity text lists a feature.
#[tactic(auto, using(crate::proofs::FeaturesLaws::feature_rules))]
pub fn has_feature(banner: &[u8], feature: &[u8]) -> bool
    ensures { result ≡ has_feature banner.now feature.now }
{
    find_list(banner).is_some_and(|rest| any_part(first_part(rest, b';'), feature))
}
