//! Which threads may hold a book.

use crate::book::Book;

/// A book may be given to another thread: the code compiles.
pub fn thread_law(book: &Book) {
    for_threads(book);
}

fn for_threads<T: Send>(_value: &T) {}
