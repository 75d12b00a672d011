// Laws of tables as rows, for the crates above. They are proved from the definitions alone.
ghost use Rattle.std.specs.Prelude.{◌≡◌, ℕ, ◌+◌, ◌-◌, ◌<◌, ◌≤◌, ◌==◌, ◌&&◌, ◌↔◌, List, length, slice_get, is_some, nat_le, nat_lt, if◌then◌else◌};
ghost use Rattle.std.specs.List.{list_any, range_with_len};
ghost use Rattle.xm_num.specs.RowLaws.{RowLaws};
ghost use Rattle.xm_num.specs.Rows.{at, put, less, put_all, less_all, any_between, lowest_in, next_from, IsAscending, IsLowestFrom};

/// What a table has at a number after a change, which numbers of a range it has, and that look-ups tell ascending
/// rows apart.
pub fn rows<V>()
    ensures put { (table : List (ℕ × V)) (k q : ℕ) (v : V) → at (put table k v) q ≡ (if k == q then Some v else at table q) }
    ensures less { (table : List (ℕ × V)) (k q : ℕ) → IsAscending table → at (less table k) q ≡ (if k == q then None else at table q) }
    ensures put_ascends { (table : List (ℕ × V)) (k : ℕ) (v : V) → IsAscending table → IsAscending (put table k v) }
    ensures less_ascends { (table : List (ℕ × V)) (k : ℕ) → IsAscending table → IsAscending (less table k) }
    ensures any { (table : List (ℕ × V)) (low high : ℕ) → any_between table low high ≡ is_some (lowest_in table low high) }
    ensures any_at { (table : List (ℕ × V)) (low high : ℕ) → any_between table low high ≡ list_any (λ k. is_some (at table k)) (range_with_len low (high - low)) }
    ensures same { (a b : List (ℕ × V)) → IsAscending a → IsAscending b → ((k : ℕ) → at a k ≡ at b k) → a ≡ b }
{}

/// What a table has at a number after a change of several numbers, that a run is taken away as it was put, and which
/// numbers `lowest_in` and `next_from` find.
pub fn runs<V>()
    ensures put_all { (table : List (ℕ × V)) (k q : ℕ) (vs : List V) →
        at (put_all table k vs) q ≡ (if nat_le k q && nat_lt q (k + length vs) then slice_get vs (q - k) else at table q) }
    ensures less_all { (table : List (ℕ × V)) (k n q : ℕ) → IsAscending table →
        at (less_all table k n) q ≡ (if nat_le k q && nat_lt q (k + n) then None else at table q) }
    ensures put_all_ascends { (table : List (ℕ × V)) (k : ℕ) (vs : List V) → IsAscending table → IsAscending (put_all table k vs) }
    ensures less_all_ascends { (table : List (ℕ × V)) (k n : ℕ) → IsAscending table → IsAscending (less_all table k n) }
    ensures back { (table : List (ℕ × V)) (k : ℕ) (vs : List V) → IsAscending table → lowest_in table k (k + length vs) ≡ None →
        less_all (put_all table k vs) k (length vs) ≡ table }
    ensures lowest { (table : List (ℕ × V)) (low high k : ℕ) → IsAscending table →
        (lowest_in table low high ≡ Some k) ↔ (IsLowestFrom table low k × (k < high)) }
    ensures no_lowest { (table : List (ℕ × V)) (low high : ℕ) →
        (lowest_in table low high ≡ None) ↔ ((q : ℕ) → low ≤ q → q < high → at table q ≡ None) }
    ensures next { (table : List (ℕ × V)) (low k : ℕ) → IsAscending table →
        (next_from table low ≡ Some k) ↔ IsLowestFrom table low k }
    ensures no_next { (table : List (ℕ × V)) (low : ℕ) →
        (next_from table low ≡ None) ↔ ((q : ℕ) → low ≤ q → at table q ≡ None) }
{}

/// Laws of rows as one definition, for lemmas that need several.
pub fn row_laws<V>()
    ensures { RowLaws V }
{}
