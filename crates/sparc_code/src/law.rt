//! What holds of words and instructions, whatever reads and writes them.

ghost use Rattle.sparc_code.specs.Laws.{HasWord, SpellsDecoded, SpellsSome, Unassigned, Unique};

/// A word spells one instruction and no other: the one that is read from its selectors. So what is
/// decoded from the word of an instruction is that instruction, and `Illegal` is a word that spells
/// nothing else.
pub fn spelling()
    // Law: each word spells an instruction, and no word two; an instruction has a word exactly where its fields are in
    // range; a word is illegal exactly where it spells nothing else.
    ensures some { SpellsSome }
    // Law: the instruction that a word spells is the one that is read from its selectors, `decoded word`, over which
    // `sparc_step` states what is executed.
    ensures decoded { SpellsDecoded }
    // No word spells two instructions.
    ensures unique { Unique }
    // An instruction has a word exactly where its fields are in range.
    ensures has_word { HasWord }
    // A word is illegal exactly where it spells no other instruction.
    ensures unassigned { Unassigned }
{}
