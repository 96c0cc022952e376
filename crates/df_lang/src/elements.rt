// Elements, fixed points and points, by their numbers.
ghost use Rattle.std.specs.Prelude.{◌≡◌, ◌≤◌, ◌<◌, ◌+◌, ◌∷◌, IfSome, position, option_copied};
ghost use Rattle.std.specs.List.{slice_split};
ghost use Rattle.df_group.specs.Elements.{order_of};
ghost use Rattle.df_lang.specs.Values.{element_of, fixed_point as meant_fixed, point_of, is_comma};
ghost use Rattle.df_lang.specs.Pieces.{pieces_left};

use crate::tokens::number;
use df_group::{Elem, Shape};
use df_subsets::Point;

/// The element that a token names.
pub(crate) fn element(shape: &Shape, token: &[u8]) -> Option<Elem>
    ensures value { result ≡ element_of shape.now token.now }
    ensures below { IfSome result (λ e. e < order_of shape.now) }
{
    let mut rest = Some(token);
    let mut place = 0u64;
    for f in shape.factors() {
        let (piece, after) = cut(rest?);
        rest = after;
        let Ok(r) = number(piece) else {
            return None;
        };
        if r >= u64::from(*f) {
            return None;
        }
        place = place * u64::from(*f) + r;
    }
    if rest.is_some() {
        return None;
    }
    Some(Elem(place as u8))
}

/// The point that a token names, where this number of fixed points is stated.
pub(crate) fn point(shape: &Shape, fixed: u8, token: &[u8]) -> Option<Point>
    requires { order_of shape.now + fixed ≤ 128 }
    ensures value { result ≡ point_of shape.now fixed token.now }
    ensures below { IfSome result (λ p. p < order_of shape.now + fixed) }
{
    match element(shape, token) {
        Some(e) => Some(Point(e.0)),
        None => fixed_point(shape, fixed, token),
    }
}

#[tactic(auto, unfolding(crate::specs::Values::fixed_point))]
fn fixed_point(shape: &Shape, fixed: u8, token: &[u8]) -> Option<Point>
    requires { order_of shape.now + fixed ≤ 128 }
    ensures value { result ≡ meant_fixed shape.now fixed token.now }
    ensures below { IfSome result (λ p. p < order_of shape.now + fixed) }
{
    if token.len() < 3 || token[..3] != b"inf"[..] {
        return None;
    }
    let Ok(n) = number(&token[3..]) else {
        return None;
    };
    if n < 1 || n > u64::from(fixed) {
        return None;
    }
    Some(Point(shape.order() + (n as u8 - 1)))
}

// The text before the first comma, and the text after it.
fn cut<'a>(text: &'a [u8]) -> (&'a [u8], Option<&'a [u8]>)
    ensures { slice_split is_comma text.now ≡ result.0.now ∷ pieces_left (option_copied result.1) }
{
    match comma_at(text) {
        Some(at) => (&text[..at], Some(&text[at + 1..])),
        None => (text, None),
    }
}

fn comma_at(text: &[u8]) -> Option<usize>
    ensures { result ≡ position is_comma text.now }
{
    text.iter().position(|b| *b == b',')
}
