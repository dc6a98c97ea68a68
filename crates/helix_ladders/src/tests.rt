mod dates;
mod floors;
mod ladders;
