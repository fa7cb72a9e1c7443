//! Laws of formats: each is for all values, and for every type of them.

ghost use Rattle.codecs.specs.Laws.{BytesAreLawful, CodedAreLawful, CountedItemsAreLawful, CountedItemsAreSteady, CutFileIsShort, CutIsShort, CutSealedFileIsShort, EachAreLawful, EachAreSteady, FieldsAreSteady, FixedTextsAreLawful, ItemsAreLawful, ItemsAreSteady, JudgedFilesAreLawful, KeyedAreLawful, ListsAreLawful, ListsAreSteady, NoBytesAreLawful, NoneIsPrefix, NumbersAreLawful, OptionalAreLawful, OptionalAreSteady, OtherFilesAreLawful, OthersAreLawful, OthersAreSteady, PairsAreLawful, PairsAreSteady, SealedFilesAreLawful, SealedFilesArePrefixFree, SealedLengthIsStated, SizedFilesAreLawful, SomeOthersAreLawful, TestedAreLawful, TestedAreSteady, VersionedFilesAreLawful, WholeFilesAreLawful, WholeFilesArePrefixFree};

/// What is read of a field was spelled there, and what is spelled is read.
pub fn fields_are_lawful<F>()
    // Law: numbers of 1, 2, 4 and 8 bytes, each, or those that pass a test.
    ensures numbers { NumbersAreLawful F }
    // Law: bytes of a known number.
    ensures bytes { BytesAreLawful F }
    // Law: a text that has to stand there.
    ensures texts { FixedTextsAreLawful F }
    // Law: no bytes.
    ensures none { NoBytesAreLawful F }
{}

/// The same of what is made of lawful formats.
pub fn parts_are_lawful<F, A, X>()
    // Law: one value after another.
    ensures pairs { PairsAreLawful F A X }
    // Law: a key, and the value that has it.
    ensures keyed { KeyedAreLawful F A X }
    // Law: other values for the same bytes.
    ensures others { OthersAreLawful F A X }
    // Law: other values for the same bytes, where only some have bytes.
    ensures some { SomeOthersAreLawful F A X }
    // Law: values by their codes.
    ensures coded { CodedAreLawful F A X }
    // Law: whether a value is there, and then the value.
    ensures optional { OptionalAreLawful F X }
    // Law: values that have to pass a test.
    ensures tested { TestedAreLawful F X }
{}

/// The same of lists.
pub fn lists_are_lawful<F, A, X>()
    // Law: items one after the other, where the format of one may depend on those before it.
    ensures items { ItemsAreLawful F A X }
    // Law: such items after their number.
    ensures numbered { CountedItemsAreLawful F A X }
    // Law: a list after its number.
    ensures counted { ListsAreLawful F X }
    // Law: an item for each of a list that is known.
    ensures each { EachAreLawful F A X }
{}

/// Where a spelling ends is known from its bytes.
pub fn ends_are_known<F, X>()
    // Law: no spelling is a proper prefix of another.
    ensures prefix { NoneIsPrefix F X }
    // Law: a spelling that is cut is short, at a place in what is left of it.
    ensures cut { CutIsShort F X }
    // Law: so is a file of one value.
    ensures file { CutFileIsShort F X }
{}

/// What is read of a field, and its fault, follow from the bytes up to it.
pub fn fields_are_steady<F>()
    // Law: more bytes after a field change neither its value nor its fault.
    ensures { FieldsAreSteady F }
{}

/// The same of what is made of such formats.
pub fn parts_are_steady<F, A, X>()
    // Law: one value after another, and a key with its value.
    ensures pairs { PairsAreSteady F A X }
    // Law: other values for the same bytes, and values by their codes.
    ensures others { OthersAreSteady F A X }
    // Law: whether a value is there, and then the value.
    ensures optional { OptionalAreSteady F X }
    // Law: values that have to pass a test.
    ensures tested { TestedAreSteady F X }
{}

/// The same of lists.
pub fn lists_are_steady<F, A, X>()
    // Law: items one after the other.
    ensures items { ItemsAreSteady F A X }
    // Law: such items after their number.
    ensures numbered { CountedItemsAreSteady F A X }
    // Law: a list after its number.
    ensures counted { ListsAreSteady F X }
    // Law: an item for each of a list that is known.
    ensures each { EachAreSteady F A X }
{}

/// A file of one value and nothing after it.
pub fn whole_files_are_lawful<F, X>()
    // Law: what is read is what is spelled, and what is spelled is read.
    ensures law { WholeFilesAreLawful F X }
    // Law: no file is a proper prefix of another.
    ensures prefix { WholeFilesArePrefixFree F X }
{}

/// A file of a name, a version, its length, a value and a digest.
pub fn sealed_files_are_lawful<F, X>()
    // Law: what is read is what is spelled, and what is spelled is read.
    ensures law { SealedFilesAreLawful F X }
    // Law: no file is a proper prefix of another.
    ensures prefix { SealedFilesArePrefixFree F X }
    // Law: the length in the head is the file's.
    ensures length { SealedLengthIsStated F X }
    // Law: a file that is cut is short, at a place in what is left of it.
    ensures cut { CutSealedFileIsShort F X }
{}

/// A file that has its length, or its version and its length, at its beginning.
pub fn headed_files_are_lawful<F, A, X>()
    // Law: what is read of a file whose format depends on its length is what is spelled, and what is spelled is read.
    ensures sized { SizedFilesAreLawful F X }
    // Law: so it is of a file of a name, a version, its length and a value.
    ensures versioned { VersionedFilesAreLawful F X }
    // Law: so it is of the same files for other values.
    ensures others { OtherFilesAreLawful F A X }
    // Law: so it is of files whose values have to pass a test.
    ensures judged { JudgedFilesAreLawful F X }
{}
