// The law of the permit rule, over all modes. It is proved from the definitions alone.
ghost use Rattle.std.specs.Prelude.{◌≡◌, ℕ, ◌+◌, ◌*◌, ◌<◌, nat_le};
ghost use Rattle.permit_check.specs.Modes.{least_digit, mode_with};
ghost use Rattle.permit_check.specs.Permits.{is_met};
ghost use Rattle.xm_num.specs.declared.Access.{Access};

/// By each of the 512 modes a user has an access exactly where one digit is large enough: at least 4 to read, and at
/// least 6 to read and to write. For the maker's user it is the first digit, for others of the maker's group the
/// second, and for all others the third. Neither of the two other digits changes the answer, nor does what stands above
/// the three.
pub fn permits_follow_the_table()
    ensures maker { (maker group others maker_uid maker_gid gid : ℕ) (access : Access) → maker < 8 → group < 8 → others < 8 →
        is_met (mode_with maker group others) maker_uid maker_gid maker_uid gid access ≡ nat_le (least_digit access) maker }
    ensures group { (maker group others maker_uid maker_gid uid : ℕ) (access : Access) → maker < 8 → group < 8 → others < 8 →
        (uid ≡ maker_uid → ⊥) →
        is_met (mode_with maker group others) maker_uid maker_gid uid maker_gid access ≡ nat_le (least_digit access) group }
    ensures others { (maker group others maker_uid maker_gid uid gid : ℕ) (access : Access) → maker < 8 → group < 8 → others < 8 →
        (uid ≡ maker_uid → ⊥) → (gid ≡ maker_gid → ⊥) →
        is_met (mode_with maker group others) maker_uid maker_gid uid gid access ≡ nat_le (least_digit access) others }
    ensures above { (mode more maker_uid maker_gid uid gid : ℕ) (access : Access) →
        is_met (mode + more * 512) maker_uid maker_gid uid gid access ≡ is_met mode maker_uid maker_gid uid gid access }
{}
