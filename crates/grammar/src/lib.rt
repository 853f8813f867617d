// What a .bench text says: its lines, the statement that a line spells, the rules that a statement can break, and
// the declarations of a whole text. There is no code here: specs/ has the definitions, and proofs/ has what the
// crates above use of them.
#![tactic(auto)]
