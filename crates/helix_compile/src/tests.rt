mod nfa;
