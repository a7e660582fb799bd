// The laws between the definitions, each on the contract of a small function: without its proof the crate does not pass.
ghost use Rattle.model.specs.Book.{BookCallsAgree};
ghost use Rattle.model.specs.Examples.{ExamplesHold};
ghost use Rattle.model.specs.Faults.{EachCauseHasItsNumber};
ghost use Rattle.model.specs.Laws.{SelectorReadsAgain, WalkGoesByHeads, WalkOfEncode, RoundTrip, Canonical, PageIsItsCard, EveryFilterIsAPage, OrderIsFree};
ghost use Rattle.model.specs.Outcomes.{NamesTellNumbers, OutcomeIsToldByTheHead};
ghost use Rattle.model.specs.Records.{RecordsLawful};
ghost use Rattle.model.specs.Refusals.{WritingOutAnswersTheFirstCause, PageCallsAnswerTheFirstCause};
ghost use Rattle.model.specs.Reordering.{EveryOrderIsReached};
ghost use Rattle.model.specs.Shipped.{BooksLawful};
ghost use Rattle.model.specs.Text.{TestIsGrammar, GrammarIsUtf8};
ghost use Rattle.model.specs.Writing.{OutputKeepsTheRest};

/// Each number from 1 to 16 is that of just one cause, and each from 1 to 4 of just one layer.
pub fn each_cause_has_its_number()
    ensures { EachCauseHasItsNumber }
{}

/// The worked examples, one table: each question is answered as its row says.
pub fn examples_hold()
    ensures { ExamplesHold }
{}

/// The walk over a row of attributes, head by head.
pub fn walk_goes_by_heads()
    ensures { WalkGoesByHeads }
{}

/// The walk over attributes that are written finds them, and nothing else.
pub fn walk_finds_what_is_written()
    ensures { WalkOfEncode }
{}

/// The test for kind texts passes just what the grammar of RFC 3629 makes.
pub fn text_test_is_the_grammar()
    ensures { TestIsGrammar }
{}

/// That grammar, and so the test, is the standard library's UTF-8: encodings of scalar values.
pub fn kind_text_is_utf8()
    ensures { GrammarIsUtf8 }
{}

/// Writing a record that was read gives back the first bytes of its payload, for all six records.
pub fn records_keep_their_law()
    ensures { RecordsLawful }
{}

/// A selector that was read is read again from what is written.
pub fn selector_reads_again()
    ensures { SelectorReadsAgain }
{}

/// From number to name to number nothing is lost, and each name is that of its number, for outcomes and mirror actions.
pub fn names_tell_numbers()
    ensures { NamesTellNumbers }
{}

/// A parameter record answers as its common head the generic record in its first 20 bytes, and so tells the outcome in bytes 8 to 11.
pub fn outcome_is_told_by_the_head()
    ensures { OutcomeIsToldByTheHead }
{}

/// The plain and the shipped book keep the laws of books.
pub fn books_keep_the_laws()
    ensures { BooksLawful }
{}

/// Memory of the length that the first call of a book tells is filled by the second, and any other is kept.
pub fn book_calls_agree()
    ensures { BookCallsAgree }
{}

/// What is written out within 65,531 bytes reads as before.
pub fn round_trip_holds()
    ensures { RoundTrip }
{}

/// Two filters that can be written out are written alike exactly when their readings are equal.
pub fn written_form_is_canonical()
    ensures { Canonical }
{}

/// Writing out answers the first of its causes that holds, and when none does the written form.
pub fn writing_out_answers_the_first_cause()
    ensures { WritingOutAnswersTheFirstCause }
{}

/// Writing out changes the output only where it writes, and not at all on a refusal.
pub fn output_keeps_the_rest()
    ensures { OutputKeepsTheRest }
{}

/// Each call of a page answers the first of its causes that holds, and is accepted when none does.
pub fn page_calls_answer_the_first_cause()
    ensures { PageCallsAnswerTheFirstCause }
{}

/// After every run of calls the page's bytes are its card's, and read as its card.
pub fn page_is_its_card()
    ensures { PageIsItsCard }
{}

/// Every filter that reads is, as it is written out within 65,531 bytes, the page of some run in memory of just that length.
pub fn every_filter_is_a_page()
    ensures { EveryFilterIsAPage }
{}

/// With no nest open, the attributes of one list in another order read as before in that order.
pub fn order_is_free()
    ensures { OrderIsFree }
{}

/// Every order of such a list is one of those: any permutation is reached by swaps of neighbours.
pub fn every_order_is_reached()
    ensures { EveryOrderIsReached }
{}
