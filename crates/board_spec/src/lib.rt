//! No code: what the board shows, line by line, and its laws. `board_lines` writes these lines, `board` shows them. Read specs/.
#![tactic(auto)]
