//! What a script answers, as plain functions of its bytes: the steps that its requests take, the
//! replies and their texts. Definitions alone; no code stands here.
#![tactic(auto)]
