// A child of a split whose tails are different unknowns: s is bound to {U|N}, then r to {T|N}, with N new.
// Kept: places, sizes and the next unknown's number are passed apart. As records they cost the run a quarter of its speed (docs/DECISIONS.md).
ghost use Rattle.std.specs.Prelude.{◌≡◌, ◌||◌, ◌&&◌};
ghost use Rattle.rows.specs.Terms.HeldWords.{holds};
ghost use Rattle.rows.specs.Made.{of_sized};
ghost use Rattle.splits.specs.KeptTails.{EntryParts};
ghost use Rattle.splits.specs.Shared.{JoinedLaid, ShareParts, ShareMade, AgainParts, AgainMade, TwiceParts, TwiceMade, RenewParts, RenewMade};
ghost use Rattle.search.specs.declared.steps.Tails.TheVariants.{Different};
ghost use Rattle.tails.specs.Due.{ChildParts, ChildMade};

use binding::bind::finish;
use choices::sides::Sides;
use room::layout::HEADER;
use rows::first::{read_header, rest_of};
use rows::parts::{Made, Rest};
use rows::walk::is_in;
use tails::bound_tail::bound;
use tails::joined_members::tail_members;
use terms::bounds::PATH_UNKNOWNS;
use terms::kind::unknown_word;

// The numbers of words of U and of T, each member with its mark.
#[derive(Clone, Copy)]
pub struct Joined {
    pub u: usize,
    pub t: usize,
}

// Lays out U in the fourth row of scratch and T in the fifth.
fn lay_joined(room: &mut [u16], from: usize, sides: Sides, size: usize, scratch: usize) -> Joined
    requires { EntryParts room.old from sides size scratch }
    ensures { JoinedLaid room.old from sides size scratch result room.new }
{
    let stride = size + HEADER;
    let us = scratch + stride;
    let picks = us + stride;
    let first = picks + stride;
    let second = first + stride;
    let body = from + HEADER;
    let n = sides.n;
    let m = sides.m;
    let u = tail_members(room, body, us, picks + n, m, n, first);
    let t = tail_members(room, body, scratch, picks, n, m, second);
    Joined { u, t }
}

// Whether s is in U, or r is in T, or s is in T and r is in U.
fn crosses(u: &[u16], t: &[u16], s: u16, r: u16) -> bool
    ensures { result ≡ (holds s u.now || (holds r t.now || (holds s t.now && holds r u.now))) }
{
    if is_in(u, s) {
        return true;
    }
    if is_in(t, r) {
        return true;
    }
    if is_in(t, s) {
        return is_in(u, r);
    }
    false
}

// The second binding: of x to the m words at `by`, from the row in which s is bound.
fn bind_again(
    arities: &[u8],
    room: &mut [u16],
    between: usize,
    x: u16,
    by: usize,
    m: usize,
    to: usize,
    size: usize,
    next: usize,
) -> Option<()>
    requires { AgainParts arities.now room.old between x by m to size next }
    ensures { AgainMade arities.now room.old between x by m to size next (of_sized result) room.new }
{
    let last = between + 5;
    let header = read_header(&room[between..last]);
    let rest = rest_of(between, header, 0);
    finish(arities, room, rest, x, by, m, to, 0, size, next)
}

// Puts the new unknown's word after U and after T, and writes {T|N} with s replaced by {U|N} to the sixth row of scratch.
fn share(
    room: &mut [u16],
    joined: Joined,
    s: u16,
    next: usize,
    size: usize,
    scratch: usize,
) -> Option<usize>
    requires { ShareParts room.old joined next size scratch }
    ensures { ShareMade room.old joined s next size scratch result room.new }
{
    let stride = size + HEADER;
    let first = scratch + stride + stride + stride;
    let second = first + stride;
    let value = second + stride;
    let word = unknown_word(next);
    room[first + joined.u] = word;
    room[second + joined.t] = word;
    replace::replace(
        room,
        second,
        joined.t + 1,
        s,
        first,
        joined.u + 1,
        value,
        size,
    )
}

// Both bindings: s to the u words of {U|N}, by way of the last row of scratch, then r to the m words at the sixth row.
fn bind_twice(
    arities: &[u8],
    room: &mut [u16],
    from: usize,
    rest: Rest,
    sides: Sides,
    s: u16,
    u: usize,
    r: u16,
    m: usize,
    to: usize,
    size: usize,
    next: usize,
    scratch: usize,
) -> Option<()>
    requires { TwiceParts arities.now room.old from rest sides s u r m to size next scratch }
    ensures { TwiceMade arities.now room.old from rest sides s u r m to size next scratch (of_sized result) room.new }
{
    let stride = size + HEADER;
    let first = scratch + stride + stride + stride;
    let value = first + stride + stride;
    let between = value + stride;
    let named = next + 1;
    bound(
        arities, room, from, rest, sides, s, first, u, between, size, named, scratch,
    )?;
    bind_again(arities, room, between, r, value, m, to, size, named)
}

// The new unknown after U and T, then both bindings.
fn renew(
    arities: &[u8],
    room: &mut [u16],
    from: usize,
    rest: Rest,
    sides: Sides,
    joined: Joined,
    s: u16,
    r: u16,
    to: usize,
    size: usize,
    next: usize,
    scratch: usize,
) -> Option<()>
    requires { RenewParts arities.now room.old from rest sides joined s r to size next scratch }
    ensures { RenewMade arities.now room.old from rest sides joined s r to size next scratch (of_sized result) room.new }
{
    let u = joined.u + 1;
    let m = share(room, joined, s, next, size, scratch)?;
    bind_twice(
        arities, room, from, rest, sides, s, u, r, m, to, size, next, scratch,
    )
}

// Different unknowns.
pub fn different(
    arities: &[u8],
    room: &mut [u16],
    from: usize,
    rest: Rest,
    sides: Sides,
    to: usize,
    size: usize,
    next: usize,
    scratch: usize,
) -> Made
    requires { ChildParts arities.now room.old from rest sides Different to size next scratch }
    ensures { ChildMade arities.now room.old from rest sides Different to size next scratch result room.new }
{
    let stride = size + HEADER;
    let first = scratch + stride + stride + stride;
    let second = first + stride;
    let s = room[from + HEADER + sides.s];
    let r = room[from + HEADER + sides.r];
    let joined = lay_joined(room, from, sides, size, scratch);
    let u = first + joined.u;
    let t = second + joined.t;
    if crosses(&room[first..u], &room[second..t], s, r) {
        return Made::Dead;
    }
    if PATH_UNKNOWNS <= next {
        return Made::Names;
    }
    Made::from(renew(
        arities, room, from, rest, sides, joined, s, r, to, size, next, scratch,
    ))
}
