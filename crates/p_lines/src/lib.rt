// The rules' examples: a table of questions and answers about the definitions. There is no code here.
#![tactic(auto)]
