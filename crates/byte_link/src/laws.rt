// Laws of links, for the layers above. They are proved from the definitions alone.
ghost use Rattle.std.specs.Prelude.{◌≡◌, ℕ, ◌+◌, ◌-◌, ◌<◌, ◌≤◌, List, [], ◌∷◌, ◌++◌, length, take, drop, min};
ghost use Rattle.std.specs.List.{concat};
ghost use Rattle.byte_link.specs.Channel.{Channel, fresh, waiting_bytes, boundary_of, first_bytes, sent, taken, ended_less, mark_taken};
ghost use Rattle.byte_link.specs.Passage.{Carries, left_of};

/// What each call does to the bytes that wait.
pub fn bytes_follow_calls()
    ensures new { waiting_bytes fresh ≡ [] }
    ensures send { (c : Channel) (bytes : List ℕ) → waiting_bytes (sent c bytes) ≡ waiting_bytes c ++ bytes }
    ensures take { (c : Channel) (n : ℕ) → waiting_bytes (taken c n) ≡ drop n (waiting_bytes c) }
    ensures end { (c : Channel) (n : ℕ) → waiting_bytes (ended_less c n) ≡ take (length (waiting_bytes c) - n) (waiting_bytes c) }
    ensures take_end { (c : Channel) → waiting_bytes (mark_taken c) ≡ waiting_bytes c }
{}

/// After any calls what has left, what waits and what was cut off are together what was sent, in order.
pub fn bytes_leave_in_order()
    ensures new { Carries fresh [] [] [] }
    ensures send { (c : Channel) (all left bytes : List ℕ) → Carries c all left [] → Carries (sent c bytes) (all ++ bytes) left [] }
    ensures take { (c : Channel) (all left cut : List ℕ) (n : ℕ) → Carries c all left cut → Carries (taken c n) all (left ++ take n (waiting_bytes c)) cut }
    ensures end { (c : Channel) (all left : List ℕ) (n : ℕ) → Carries c all left [] → Carries (ended_less c n) all left (drop (length (waiting_bytes c) - n) (waiting_bytes c)) }
    ensures take_end { (c : Channel) (all left cut : List ℕ) → Carries c all left cut → Carries (mark_taken c) all left cut }
{}

/// After any calls the pieces of a link are its records, cut at the end, less the first bytes that were taken.
pub fn pieces_follow_calls()
    ensures new { fresh.pieces ≡ left_of [] 0 }
    ensures send { (c : Channel) (records : List (List ℕ)) (gone : ℕ) (bytes : List ℕ) →
        gone ≤ length (concat records) → 0 < length bytes → c.pieces ≡ left_of records gone →
        (sent c bytes).pieces ≡ left_of (records ++ bytes ∷ []) gone }
    ensures take { (c : Channel) (records : List (List ℕ)) (gone n : ℕ) →
        c.pieces ≡ left_of records gone → (taken c n).pieces ≡ left_of records (gone + n) }
    ensures end { (c : Channel) (records : List (List ℕ)) (gone n : ℕ) →
        gone + n ≤ length (concat records) → c.pieces ≡ left_of records gone →
        (ended_less c n).pieces ≡ left_of (first_bytes (length (concat records) - n) records) gone }

    // The bytes of such pieces, and of records that are cut.
    ensures bytes { (records : List (List ℕ)) (gone : ℕ) → concat (left_of records gone) ≡ drop gone (concat records) }
    ensures cut { (records : List (List ℕ)) (kept : ℕ) → concat (first_bytes kept records) ≡ take kept (concat records) }
{}

/// The boundary of a link is the end of the first record that isn't wholly taken, or of what was kept of it.
pub fn boundaries_end_records()
    ensures whole { (c : Channel) (before after : List (List ℕ)) (first : List ℕ) (gone : ℕ) →
        c.pieces ≡ left_of (before ++ first ∷ after) gone →
        length (concat before) ≤ gone → gone < length (concat before) + length first →
        boundary_of c ≡ length (concat before) + length first - gone }
    ensures cut { (c : Channel) (before after : List (List ℕ)) (first : List ℕ) (kept gone : ℕ) →
        c.pieces ≡ left_of (first_bytes kept (before ++ first ∷ after)) gone →
        length (concat before) ≤ gone → gone < min kept (length (concat before) + length first) →
        boundary_of c ≡ min kept (length (concat before) + length first) - gone }
{}
