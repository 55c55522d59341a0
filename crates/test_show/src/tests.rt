mod content;
mod evidence;
mod explain;
mod row;
mod show;
mod source;
mod words;
