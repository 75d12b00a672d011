// The laws of spellings and of streams. Each is the contract of a function that does nothing.
ghost use Rattle.std.specs.Prelude.{◌≡◌, ℕ, ◌<◌, ◌≤◌, true, None, Some, List, ◌++◌, length, take, fold};
ghost use Rattle.std.specs.List.{flat_map, AllByRecursion};
ghost use Rattle.std.specs.Option.{option_map};
ghost use Rattle.xemem_wire.specs.Table.{kind_of, u32_at};
ghost use Rattle.xemem_wire.specs.Fields.{length_of_kind};
ghost use Rattle.xemem_wire.specs.Spelling.{spelling_of, spellings_of, is_valid, AreValid};
ghost use Rattle.xemem_wire.specs.Stream.{reading_of, records_of, rest_of, record_onto, records_onto, nothing_read, first_bad, moved, IsSplit};
ghost use Rattle.xemem_wire.specs.Decoding.{Decoding, nothing_taken, after_piece, from_the_start};
ghost use Rattle.xemem_language.specs.Ranges.{IsSpelledBody};
ghost use Rattle.xemem_language.specs.declared.record.Record.{Record};
ghost use Rattle.xemem_wire.specs.declared.format.BadField.{BadField};

/// No spelling is a proper front of another, and no two valid records share one.
pub fn one_spelling()
    ensures { (r s : Record) (x y : List ℕ) → is_valid r ≡ true → is_valid s ≡ true →
        spelling_of r ++ x ≡ spelling_of s ++ y → (r ≡ s) × (x ≡ y) }
{}

/// Every stream is its whole records and a rest with which no valid record begins, and it is so in one way only.
pub fn one_split()
    ensures split { (bytes : List ℕ) → IsSplit bytes (records_of bytes) (rest_of bytes) }
    ensures only { (bytes : List ℕ) (rs : List Record) (rest : List ℕ) → IsSplit bytes rs rest →
        (records_of bytes ≡ rs) × (rest_of bytes ≡ rest) }
{}

/// What valid records spell is read as these records, and then as what follows.
pub fn spellings_are_read()
    ensures first { (r : Record) (more : List ℕ) → is_valid r ≡ true →
        reading_of (spelling_of r ++ more) ≡ record_onto r (reading_of more) }
    ensures all { (rs : List Record) (more : List ℕ) → AreValid rs →
        reading_of (spellings_of rs ++ more) ≡ records_onto rs (reading_of more) }
    ensures bad { (rs : List Record) (more : List ℕ) → AreValid rs →
        first_bad (spellings_of rs ++ more) ≡ option_map (moved (length (spellings_of rs))) (first_bad more) }
{}

/// The spelling of a valid record has the length that it tells, which is that of its kind, from a header to a longest
/// record, and consists of bytes.
pub fn spelling_length()
    ensures told { (r : Record) (more : List ℕ) → u32_at (spelling_of r ++ more) 0 ≡ length (spelling_of r) }
    ensures kind { (r : Record) → is_valid r ≡ true → length (spelling_of r) ≡ length_of_kind (kind_of r.body) }
    ensures least { (r : Record) → 16 ≤ length (spelling_of r) }
    ensures most { (r : Record) → is_valid r ≡ true → length (spelling_of r) ≤ 16404 }
    ensures bytes { (r : Record) → is_valid r ≡ true → AllByRecursion (λ byte. byte < 256) (spelling_of r) }
{}

/// What a valid record says has a spelling as a line has it: its segid isn't negative.
pub fn body_is_spelled()
    ensures { (r : Record) → is_valid r ≡ true → IsSpelledBody r.body }
{}

/// Where the last of several valid records is cut, the others are read, its front is the rest, and no field is bad.
pub fn cut_spelling()
    ensures reading { (rs : List Record) (r : Record) (n : ℕ) → AreValid rs → is_valid r ≡ true →
        n < length (spelling_of r) → reading_of (spellings_of rs ++ take n (spelling_of r))
        ≡ records_onto rs (nothing_read (take n (spelling_of r))) }
    ensures fine { (rs : List Record) (r : Record) (n : ℕ) → AreValid rs → is_valid r ≡ true →
        n < length (spelling_of r) → first_bad (spellings_of rs ++ take n (spelling_of r)) ≡ None }
{}

/// A front of what valid records spell has no bad field. It is read as the first of these records, and what is left of it
/// spells the others together with what is still to come.
pub fn front_of_spellings()
    ensures fine { (rs : List Record) (bytes more : List ℕ) → AreValid rs → bytes ++ more ≡ spellings_of rs →
        first_bad bytes ≡ None }
    ensures first { (rs : List Record) (bytes more : List ℕ) → AreValid rs → bytes ++ more ≡ spellings_of rs →
        (later : List Record) × (rs ≡ records_of bytes ++ later) × (rest_of bytes ++ more ≡ spellings_of later) }
{}

/// After a bad field no more records come, and it stays the first.
pub fn bad_field_stays()
    ensures records { (bytes more : List ℕ) (bad : BadField) → first_bad bytes ≡ Some bad →
        records_of (bytes ++ more) ≡ records_of bytes }
    ensures bad { (bytes more : List ℕ) (bad : BadField) → first_bad bytes ≡ Some bad →
        first_bad (bytes ++ more) ≡ Some bad }
{}

/// However a stream is cut into pieces, a decoder that takes them has what it has from the whole stream: its records up to
/// the first bad field, and this field.
pub fn any_pieces()
    ensures two { (d : Decoding) (xs ys : List ℕ) → after_piece (after_piece d xs) ys ≡ after_piece d (xs ++ ys) }
    ensures all { (pieces : List (List ℕ)) →
        fold after_piece nothing_taken pieces ≡ from_the_start (flat_map (λ piece. piece) pieces) }
{}
