//! What holds of every address.
ghost use Rattle.replay_url.specs.ReadBack.{AddressesAreReadBack, AddressesHaveOneForm};

use time_text::texts_have_no_blanks;

/// An address that is written is read back: behind the site's base, the address of a form is read as that form, if its URL
/// has a scheme and a key, and its digits name its time.
pub fn addresses_are_read_back()
    ensures { AddressesAreReadBack }
{
    texts_have_no_blanks();
}

/// An address has one form.
#[tactic(auto, using(crate::proofs::OneForm::addresses_have_one_form))]
pub fn addresses_have_one_form()
    ensures { AddressesHaveOneForm }
{}
