// From a key, which is bytes, to its place: the split and the translators.
#![tactic(auto)]

mod cap;
mod fold;
mod label;
mod padded;
mod place;
mod prefix;
mod split;
mod translator;

pub use cap::Cap;
pub use fold::{Fold, fold_reverses};
pub use label::Labels;
pub use padded::padded_to;
pub use place::{compare_places, place_of};
pub use prefix::Prefix;
pub use translator::{OrderedTranslator, Translator};
