// How the ends and the walk of a book are asked for: only a book whose translator keeps order has them.

use crate::fault::Fault;
use book::Book;
use keys::{Key, Label, Place};
use std::alloc::Global;
use store::Store;
use translate::{Cap, Fold, Labels, OrderedTranslator, Translator};
use words::Reason;

// What a book of the translator T can be asked of the order of its places.
pub trait Neighbours<T: Translator> {
    // The least place.
    fn first<S: Store<Key = T::Key>>(book: &Book<S, T>) -> Result<Option<Place<T::Key>>, Fault>;

    // The greatest place.
    fn last<S: Store<Key = T::Key>>(book: &Book<S, T>) -> Result<Option<Place<T::Key>>, Fault>;

    // Every place, from the first on.
    fn walk<S: Store<Key = T::Key>>(
        heap: Global,
        book: &Book<S, T>,
    ) -> Result<Vec<Place<T::Key>>, Fault>;
}

// For translators that keep order.
pub struct Ordered;

// For all others.
pub struct Unordered;

impl<T: OrderedTranslator> Neighbours<T> for Ordered {
    fn first<S: Store<Key = T::Key>>(book: &Book<S, T>) -> Result<Option<Place<T::Key>>, Fault> {
        Ok(book.first()?)
    }

    fn last<S: Store<Key = T::Key>>(book: &Book<S, T>) -> Result<Option<Place<T::Key>>, Fault> {
        Ok(book.last()?)
    }

    fn walk<S: Store<Key = T::Key>>(
        heap: Global,
        book: &Book<S, T>,
    ) -> Result<Vec<Place<T::Key>>, Fault> {
        let mut places = Vec::new(heap);
        let mut next = book.first()?;
        while let Some(place) = next {
            places.push(place)?;
            next = book.next_after(&place)?;
        }
        Ok(places)
    }
}

impl<T: Translator> Neighbours<T> for Unordered {
    fn first<S: Store<Key = T::Key>>(_book: &Book<S, T>) -> Result<Option<Place<T::Key>>, Fault> {
        Err(Fault::Wrong(Reason::NoOrder))
    }

    fn last<S: Store<Key = T::Key>>(_book: &Book<S, T>) -> Result<Option<Place<T::Key>>, Fault> {
        Err(Fault::Wrong(Reason::NoOrder))
    }

    fn walk<S: Store<Key = T::Key>>(
        _heap: Global,
        _book: &Book<S, T>,
    ) -> Result<Vec<Place<T::Key>>, Fault> {
        Err(Fault::Wrong(Reason::NoOrder))
    }
}

// A translator that a script can name, with what its books can be asked of their order.
pub trait Named: Translator + Copy + Drop {
    type Order: Neighbours<Self>;
}

impl Named for Cap {
    type Order = Ordered;
}

impl Named for Labels {
    type Order = Ordered;
}

impl Named for Fold {
    type Order = Unordered;
}
