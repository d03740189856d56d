ghost use Rattle.dsl_tree.specs.Language.{OneTree, OneFile, OneSpelling, FaultsSpellNothing, OneFirstFault, TreeOrFault, ForestsAreTrees, TreesAreFiles};

/// The law that a list of tokens is spelled by one tree at most.
pub fn one_tree()
    ensures { OneTree }
{}

/// The law that two files, as the program holds them, are equal if one list of tokens spells both.
pub fn one_file()
    ensures { OneFile }
{}

/// The law that each tree of the grammar is spelled by some tokens, and always by tokens of equal kinds.
pub fn one_spelling()
    ensures { OneSpelling }
{}

/// The law that a list of tokens with a first fault spells no tree.
pub fn faults_spell_nothing()
    ensures { FaultsSpellNothing }
{}

/// The law that a list of tokens has one first fault at most.
pub fn one_first_fault()
    ensures { OneFirstFault }
{}

/// The law that a list whose last token, and no other, is END has a tree or a first fault.
pub fn tree_or_fault()
    ensures { TreeOrFault }
{}

/// The law that each forest of the grammar is what some tree is written as.
pub fn forests_are_trees()
    ensures { ForestsAreTrees }
{}

/// The law that each tree that follows the grammar is the tree of some `File`.
pub fn trees_are_files()
    ensures { TreesAreFiles }
{}
