mod folders;
mod hosts;
