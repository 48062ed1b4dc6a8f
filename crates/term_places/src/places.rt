// Places of words that hold terms: where a term ends, where an unknown's value stands, and the way along the members of a set to its kernel.
ghost use Rattle.std.specs.Prelude.{◌≡◌};
ghost use Rattle.terms.specs.Bounds.{edition_one};
ghost use Rattle.term_places.specs.Standing.{Within};
ghost use Rattle.term_places.specs.Places.{end, resolved, rest_of, Resolvable, AtPlace, AtMember, KernelOf};
ghost use Rattle.term_places.specs.Lent.{of};

use terms::bounds::MEMBER;
use terms::kind::{Kind, kind_of};
use walks::walk::terms_end;

// Words that hold terms, with the functors' arities, and where in the words each unknown's value starts.
#[derive(Clone, Copy)]
pub struct Held<'a> {
    pub arities: &'a [u8],
    pub words: &'a [u16],
    pub starts: &'a [u16],
}

// Where the term at p ends, for words whose values are not all noted yet; `Held` has it for the others.
pub fn term_end(arities: &[u8], words: &[u16], p: usize) -> usize
    requires { Within edition_one arities.now words.now p }
    ensures { result ≡ end edition_one arities.now words.now p }
{
    terms_end(arities, words, p, 1)
}

impl<'a> Held<'a> {
    // Where the term at p ends.
    pub fn term_end(&self, p: usize) -> usize
        requires { Within edition_one self.now.arities.now self.now.words.now p }
        ensures { result ≡ end edition_one self.now.arities.now self.now.words.now p }
    {
        term_end(self.arities, self.words, p)
    }

    // The place of the value where an unknown stands; any other place itself.
    pub fn resolve(&self, p: usize) -> usize
        requires { Resolvable edition_one self.now.words.now self.now.starts.now p }
        ensures { result ≡ resolved edition_one self.now.words.now self.now.starts.now p }
    {
        match kind_of(self.words[p]) {
            Kind::Unknown(i) => usize::from(self.starts[usize::from(i)]),
            Kind::Empty | Kind::Member | Kind::Functor(_) | Kind::Nothing => p,
        }
    }

    // The place of the rest where a member adding stands.
    pub fn rest(&self, p: usize) -> usize
        requires { AtMember (of self.now) p }
        ensures { result ≡ rest_of (of self.now) p }
    {
        self.resolve(self.term_end(p + 1))
    }

    // The place of the kernel.
    pub fn kernel(&self, p: usize) -> usize
        requires { AtPlace (of self.now) p }
        ensures { KernelOf (of self.now) p result }
    {
        let mut x = p;
        // Kept: the rest of a set may stand at any place, so the walk ends where no member stands, and no `for` counts it.
        while self.words[x] == MEMBER {
            x = self.rest(x);
        }
        x
    }
}
