// Two signatures of as many words, compared: each test stops at the first word that decides it, from the high end. The high word, which
// decides most of them, stands before the loop.
ghost use Rattle.std.specs.Prelude.{◌≡◌, ℕ, ◌^◌, ◌≤◌, ◌<◌, eqb, length, get_or};
ghost use Rattle.std.specs.Int.Bits.{bit_and};
ghost use Rattle.model.specs.Wide.{number_in};
ghost use Rattle.model.specs.Signature.{coversb};

// Whether every position set in a query of one word is set in the signature.
pub fn word_covers(signature: u64, query: u64) -> bool
    ensures { (F : ℕ) → query < 2 ^ F → result ≡ coversb F signature query }
{
    signature & query == query
}

// Whether the two are equal.
pub fn same(a: &[u64], b: &[u64]) -> bool
    requires { (1 ≤ length b.now) × (length a.now ≡ length b.now) }
    ensures { result ≡ eqb (number_in a.now) (number_in b.now) }
{
    if a[0] != b[0] {
        return false;
    }
    for i in 1..b.len() {
        if a[i] != b[i] {
            return false;
        }
    }
    true
}

// Whether no position is set.
pub fn is_zero(signature: &[u64]) -> bool
    ensures { result ≡ eqb (number_in signature.now) 0 }
{
    for word in signature {
        if *word != 0 {
            return false;
        }
    }
    true
}

// Whether the positions of the mask are set in the signature exactly where they are in the edges.
pub fn agrees(signature: &[u64], mask: &[u64], edges: &[u64]) -> bool
    requires { (1 ≤ length edges.now) × (length signature.now ≡ length edges.now) × (length mask.now ≡ length edges.now) }
    ensures { result ≡ eqb (bit_and (number_in signature.now) (number_in mask.now)) (number_in edges.now) }
{
    if signature[0] & mask[0] != edges[0] {
        return false;
    }
    for i in 1..edges.len() {
        if signature[i] & mask[i] != edges[i] {
            return false;
        }
    }
    true
}

// The index of the first words that differ.
pub(crate) fn first_word(a: &[u64], b: &[u64]) -> usize
    requires { (length a.now ≡ length b.now) × (number_in a.now ≡ number_in b.now → ⊥) }
    ensures { (result < length b.now) × (get_or a.now result 0 ≡ get_or b.now result 0 → ⊥) × ((i : ℕ) → i < result → get_or a.now i 0 ≡ get_or b.now i 0) }
{
    let mut i = 0;
    while i < b.len() {
        if a[i] != b[i] {
            return i;
        }
        i += 1;
    }
    i
}
