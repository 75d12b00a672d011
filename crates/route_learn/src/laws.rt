// Laws of what is learned of ways, for the crates above.
ghost use Rattle.std.specs.Prelude.{◌≡◌, ◌&&◌, ◌∷◌, ℕ, List, reverse, Bool, false, not, Some, MatchOption};
ghost use Rattle.xm_num.specs.declared.Neighbour.{Neighbour as Neighbours};
ghost use Rattle.xm_num.specs.Rows.{at};
ghost use Rattle.route_learn.specs.Routes.{AreAscending, no_routes, place_of, first_asker};
ghost use Rattle.route_learn.specs.Filters.{Event, after_events, way_of, back_of, route_of, is_same, is_asker, asker_of, IsFirstAsker};
ghost use Rattle.route_learn.specs.Filters.Event.{AskerTaken};

use xm_num::Neighbour;
use xm_num::laws::row_laws;

/// What is known of ways is the filters of the calls that were made, the newest first: the way to the name server, each
/// way back, each route and each asker. The tables ascend.
pub fn routes_are_filters()
    ensures way { (holder : Bool) (events : List Event) → (after_events (no_routes holder) events).way ≡ way_of holder (reverse events) }
    ensures back { (holder : Bool) (events : List Event) (d : ℕ)
        → at (after_events (no_routes holder) events).back d ≡ back_of d (reverse events) }
    ensures routes { (holder : Bool) (events : List Event) (d : ℕ)
        → at (after_events (no_routes holder) events).routes d ≡ route_of d (reverse events) }
    ensures askers { (holder : Bool) (events : List Event) (n : Neighbours)
        → at (after_events (no_routes holder) events).askers (place_of n) ≡ asker_of holder n (reverse events) }
    ensures ascending { (holder : Bool) (events : List Event) → AreAscending (after_events (no_routes holder) events) }
{
    row_laws::<Neighbour>();
}

/// The first asker is the one of those that ask that has the lowest place. Once it is taken the others ask as before.
pub fn askers_are_taken()
    ensures first { (holder : Bool) (events : List Event)
        → MatchOption (first_asker (after_events (no_routes holder) events))
        ((n : Neighbours) → is_asker holder n (reverse events) ≡ false) (λ n. IsFirstAsker holder (reverse events) n) }
    ensures taken { (holder : Bool) (events : List Event) (n m : Neighbours)
        → first_asker (after_events (no_routes holder) events) ≡ Some n
        → is_asker holder m (AskerTaken ∷ reverse events) ≡ (is_asker holder m (reverse events) && not (is_same n m)) }
{
    row_laws::<Neighbour>();
}
