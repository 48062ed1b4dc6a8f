// Walks over the words of terms: where a term ends, where its kernel stands, whether a word occurs.
ghost use Rattle.std.specs.Prelude.{◌≡◌, ◌<◌, ◌^◌, length};
ghost use Rattle.terms.specs.Bounds.{edition_one};
ghost use Rattle.rows.specs.Terms.Ended.{term_end};
ghost use Rattle.rows.specs.Terms.Stripped.{kernel_at};
ghost use Rattle.rows.specs.Terms.HeldWords.{holds};

use terms::bounds::MEMBER;
use terms::kind::terms_after;
use walks::walk::terms_end;

// The place after the first term of the words, or their end where it does not end before. Many terms are one word, which needs no walk.
pub fn end_of_term(arities: &[u8], words: &[u16]) -> usize
    requires { length words.now < 2 ^ 32 }
    ensures { result ≡ term_end edition_one arities.now words.now }
{
    if 0 < words.len() && terms_after(arities, words[0]) == 0 {
        return 1;
    }
    terms_end(arities, words, 0, 1)
}

// The place of the kernel of the term that the words begin with.
pub fn place_of_kernel(arities: &[u8], words: &[u16]) -> usize
    requires { length words.now < 2 ^ 32 }
    ensures { result ≡ kernel_at edition_one arities.now words.now }
{
    let mut due = 0;
    for (place, word) in words.iter().enumerate() {
        if 0 < due {
            due = due - 1 + usize::from(terms_after(arities, *word));
        } else {
            if *word != MEMBER {
                return place;
            }
            due = 1;
        }
    }
    words.len()
}

// Whether x is one of the words.
pub fn is_in(words: &[u16], x: u16) -> bool
    ensures { result ≡ holds x words.now }
{
    words.contains(&x)
}
