//! What lower crates promise of texts and books, as a gathering cites it.
ghost use Rattle.archive_gathering.specs.Reading.{Laws};

use capture::{captures_have_one_payload, growth_keeps_captures};
use volume_scan::books_go_on_with_what_is_found;
use warc_text::{
    numbers_have_one_group, sound_volumes_have_one_text, texts_stay_when_a_book_grows,
};

/// The laws on which what is read goes on.
pub fn reading_laws()
    ensures { Laws }
{
    books_go_on_with_what_is_found();
    texts_stay_when_a_book_grows();
    numbers_have_one_group();
    sound_volumes_have_one_text();
    captures_have_one_payload();
    growth_keeps_captures();
}
