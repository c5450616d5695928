//! Tables of many owners as finite maps, and rows in whatever order a store keeps them: definitions
//! and lemmas over any key and any row. It has no code, and knows nothing of mail.
#![tactic(auto)]
