mod ending;
mod environment;
mod profiles;

/// A profile of one boolean field. The texts of cases are what functions give, so that a proof of a test carries none.
fn flag() -> &'static str {
    "{\"fields\":[{\"name\":\"flag\",\"type\":\"boolean\"}],\"constraints\":[]}"
}

/// The words of nearly every run.
fn words() -> [&'static str; 4] {
    ["--profile-file", "p.json", "--output-path", "o.csv"]
}
