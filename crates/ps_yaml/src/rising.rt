//! The law of places. It is the contract of a function that does nothing.

ghost use Rattle.ps_yaml.specs.Places.{PlacesRise};

/// A law: the names and nodes of a document stand in its order, each pair and each item below the one before it.
pub fn places_rise()
    ensures { PlacesRise }
{}
