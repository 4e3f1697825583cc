//! Cutting a text at a mark, and a line into its words.

ghost use Rattle.std.specs.Prelude.{◌≡◌, ◌∷◌};
ghost use Rattle.dds_script.specs.Cutting.{IsCut, cut_rest};
ghost use Rattle.dds_script.specs.Words.{cut, has_gap, words};

use crate::words::find;

/// What stands before the first mark, and what follows that mark, if it is there.
pub fn cut_first(text: &[u8], mark: u8) -> (&[u8], Option<&[u8]>)
    ensures { cut mark text.now ≡ result.0.now ∷ cut_rest mark result.1 }
{
    match find(text, mark) {
        Some(place) => (&text[..place], Some(&text[place + 1..])),
        None => (text, None),
    }
}

/// The words of a line, up to five; no form has more.
#[derive(Clone, Copy)]
pub enum Words<'a> {
    One(&'a [u8]),
    Two(&'a [u8], &'a [u8]),
    Three(&'a [u8], &'a [u8], &'a [u8]),
    Four(&'a [u8], &'a [u8], &'a [u8], &'a [u8]),
    Five(&'a [u8], &'a [u8], &'a [u8], &'a [u8], &'a [u8]),
    More,
}

/// Cuts a line into its words. Where a space stands first, last, or behind another one, they are one empty word.
pub fn cut_words(text: &[u8]) -> Words<'_>
    ensures { IsCut (words text.now) result }
{
    if has_gap(text) {
        return Words::One(&text[..0]);
    }
    cut_spaces(text)
}

fn has_gap(text: &[u8]) -> bool
    ensures { result ≡ has_gap text.now }
{
    let mut space = true;
    for byte in text {
        if space && *byte == b' ' {
            return true;
        }
        space = *byte == b' ';
    }
    space
}

/// Cuts a line at its spaces.
fn cut_spaces(text: &[u8]) -> Words<'_>
    ensures { IsCut (cut 32 text.now) result }
{
    let (a, rest) = cut_first(text, b' ');
    let Some(rest) = rest else {
        return Words::One(a);
    };
    let (b, rest) = cut_first(rest, b' ');
    let Some(rest) = rest else {
        return Words::Two(a, b);
    };
    let (c, rest) = cut_first(rest, b' ');
    let Some(rest) = rest else {
        return Words::Three(a, b, c);
    };
    let (d, rest) = cut_first(rest, b' ');
    let Some(rest) = rest else {
        return Words::Four(a, b, c, d);
    };
    let (e, rest) = cut_first(rest, b' ');
    match rest {
        None => Words::Five(a, b, c, d, e),
        Some(_) => Words::More,
    }
}
