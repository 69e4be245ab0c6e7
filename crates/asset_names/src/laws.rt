//! Laws of names, each as the clause of a function that does nothing.
ghost use Rattle.std.specs.Prelude.{◌≡◌, ◌↔◌, ◌++◌, ℕ, true, false, List, codes};
ghost use Rattle.asset_names.specs.Anchoring.{anchored_name, is_absolute, normal_name, segments};
ghost use Rattle.asset_names.specs.Normalised.{AreParts, HasNoSlash, IsNameOf, IsNormalised};

/// The segments of a text are its parts between slashes: the one row of texts without a slash that are the text again when they are
/// joined by slashes.
pub fn segments_are_the_parts_between_slashes()
    ensures { (text : List ℕ) (parts : List (List ℕ)) → (segments text ≡ parts) ↔ AreParts text parts }
{}

/// What a text gives by itself is normalised, and so is the name that an asset has in a layer, whatever the texts are.
pub fn names_are_normalised()
    ensures alone { (text : List ℕ) → IsNormalised (normal_name text) }
    ensures anchored { (layer asset : List ℕ) → IsNormalised (anchored_name layer asset) }
{}

/// The names that give themselves are the normalised ones.
pub fn normalised_names_stay()
    ensures { (name : List ℕ) → (normal_name name ≡ name) ↔ IsNormalised name }
{}

/// A text gives the one normalised name that is reached when what says nothing is left out of its segments: some order leads to
/// one, and no order leads to another.
pub fn names_leave_out_what_says_nothing()
    ensures { (text name : List ℕ) → (name ≡ normal_name text) ↔ IsNameOf text name }
{}

/// An absolute asset stands alone. In a layer of a normalised name any other takes the place of what stands behind the name's last
/// slash; where the name has no slash, the asset is the whole text.
pub fn assets_take_the_place_of_their_layer()
    ensures absolute { (layer asset : List ℕ) → is_absolute asset ≡ true → anchored_name layer asset ≡ normal_name asset }
    ensures in_a_folder { (folder last asset : List ℕ) → HasNoSlash last → IsNormalised (folder ++ codes "/" ++ last) → is_absolute asset ≡ false
        → anchored_name (folder ++ codes "/" ++ last) asset ≡ normal_name (folder ++ codes "/" ++ asset) }
    ensures in_no_folder { (layer asset : List ℕ) → HasNoSlash layer → IsNormalised layer → is_absolute asset ≡ false
        → anchored_name layer asset ≡ normal_name asset }
{}
