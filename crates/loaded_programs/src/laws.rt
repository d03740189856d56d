ghost use Rattle.loaded_programs.specs.TokenLaws.{NumbersAreShort, NamesAreNoWords, StringsAreFew};
ghost use Rattle.loaded_programs.specs.TreeLaws.{TreesPassTests, TreesAreShort, TreesAreFormed, TextsAreFew};
ghost use Rattle.loaded_programs.specs.LoadLaws.{LoadsAreLoadedPrograms};

/// The law that each number of a source's tokens has at most 18 digits.
pub fn numbers_are_short()
    ensures { NumbersAreShort }
{}

/// The law that no name of a source's tokens is a word of the language.
pub fn names_are_no_words()
    ensures { NamesAreNoWords }
{}

/// The law that a source's tokens have no more strings than the source has bytes.
pub fn strings_are_few()
    ensures { StringsAreFew }
{}

/// The law that a test of kinds that all tokens pass is passed by all that their tree is written as:
/// by numbers of values, units, enums and indexes alike, and by all names.
pub fn trees_pass_tests()
    ensures { TreesPassTests }
{}

/// The law that the numbers of a tree have at most 18 digits if those of its tokens have.
pub fn trees_are_short()
    ensures { TreesAreShort }
{}

/// The law that a tree is as the laws on scenes ask, if the numbers of its tokens are short and no
/// name of them is a word.
pub fn trees_are_formed()
    ensures { TreesAreFormed }
{}

/// The law that a tree has no more texts than its tokens have strings.
pub fn texts_are_few()
    ensures { TextsAreFew }
{}

/// The law that a program that is loaded and has no fault of declarations is as the laws on scenes ask:
/// its trees are as the grammar has them, its texts are few, and vehicles have their limits.
pub fn loads_are_loaded_programs()
    ensures { LoadsAreLoadedPrograms }
{}
