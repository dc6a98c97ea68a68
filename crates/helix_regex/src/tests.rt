mod nesting;
